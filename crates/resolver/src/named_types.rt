//! Types that are looked for by their names, and what the replies lead to (ECMA-335 II.22.2, II.22.5, II.22.14,
//! II.22.32, II.22.37).

ghost use Rattle.std.specs.Prelude.{◌≡◌, IfOk};
ghost use Rattle.std.specs.Str.{bytes_eq};
ghost use Rattle.resolver.specs.NamedTypes.{after_named_type, is_row_of_type};
ghost use Rattle.resolver.specs.Questions.{find_type, first_assembly, of_first, of_module, type_question};
ghost use Rattle.resolver.specs.Questions.{unresolved_next};
ghost use Rattle.resolver.specs.References.{row_name};

use crate::assemblies::{
    after_assembly_ref, after_assembly_row, after_exported_type, after_exported_types, after_search,
};
use crate::cells::text_named;
use crate::found::unresolved_name;
use crate::nested::{after_nested_row, after_nested_type, after_nested_types};
use crate::next::{Next, question};
use crate::state::{Advance, State};
use cil_base::{Bytes, NoMemory, Token};
use md_schema::{Link, table};
use node_model::{Query, Reply, RowValue};
use std::alloc::Global;

/// The row of a module's assembly.
pub(crate) const FIRST_ASSEMBLY: Token = Token {
    table: table::ASSEMBLY,
    rid: 1,
};

/// A type by its namespace and its name.
#[derive(Drop)]
pub(crate) struct TypeName {
    pub namespace: Bytes,
    pub name: Bytes,
}

/// What is asked for a type that is looked for by its name.
#[derive(Drop)]
pub(crate) enum TypeStage {
    /// The row of a reference to the assembly that has it.
    AssemblyRef {
        at: u32,
        token: Token,
        wanted: TypeName,
    },
    /// The row of the assembly of the first of the last so many modules: one of the name is looked for, in which the
    /// type stands. `forwards` says whether its exported types may lead on.
    Assembly {
        left: u32,
        name: Bytes,
        wanted: TypeName,
        forwards: bool,
    },
    /// The type by its name.
    ByName {
        at: u32,
        wanted: TypeName,
        forwards: bool,
    },
    /// The list of the exported types.
    ExportedTypes {
        at: u32,
        wanted: TypeName,
    },
    /// The row of the first exported type that is left.
    ExportedType {
        at: u32,
        wanted: TypeName,
    },
    /// The list of the NestedClass rows of a type, in which one of the name is looked for.
    NestedTypes {
        at: u32,
        of: Token,
        name: Bytes,
    },
    /// The first of these rows that is left.
    NestedRow {
        at: u32,
        name: Bytes,
    },
    /// The row of the type that it names.
    NestedType {
        at: u32,
        token: Token,
        name: Bytes,
    },
}

impl TypeName {
    /// An equal name of its own.
    pub(crate) fn copy(&self) -> Result<TypeName, NoMemory>
        ensures { IfOk result (λ copy. copy ≡ self.now) }
    {
        let namespace = self.namespace.copy()?;
        let name = self.name.copy()?;
        Ok(TypeName { namespace, name })
    }

    /// The search for the type in a module.
    pub(crate) fn search(&self) -> Result<Query, NoMemory>
        ensures { IfOk result (λ query. query ≡ find_type self.now) }
    {
        let namespace = self.namespace.copy()?;
        let name = self.name.copy()?;
        Ok(Query::FindType { namespace, name })
    }

    /// Whether a row is of a type of this name.
    pub(crate) fn names(&self, row: &RowValue) -> bool
        ensures { result ≡ is_row_of_type self.now row.now }
    {
        text_named(row, b"Name") == self.name.as_slice()
            && text_named(row, b"Namespace") == self.namespace.as_slice()
    }
}

/// Whether the row has this name.
pub(crate) fn has_name(row: &RowValue, name: &Bytes) -> bool
    ensures { result ≡ bytes_eq (row_name row.now) name.now }
{
    text_named(row, b"Name") == name.as_slice()
}

/// What is told where nothing has the name.
pub(crate) fn unresolved_next(state: &State, name: &Bytes) -> Result<Next, NoMemory>
    ensures { IfOk result (λ next. next ≡ unresolved_next state.now name.now) }
{
    let name = unresolved_name(&state.reading, name).copy()?;
    Ok(Next::Unresolved(name))
}

/// The row of the assembly of the first of the last so many modules.
fn assembly_question(state: &State, left: u32, name: &Bytes) -> Result<Next, NoMemory>
    ensures { IfOk result (λ next. next
        ≡ of_module state.now left (Query.Row first_assembly) (unresolved_next state.now name.now)) }
{
    if left == 0 {
        return unresolved_next(state, name);
    }
    question(
        state.modules.saturating_sub(left),
        Query::Row(FIRST_ASSEMBLY),
    )
}

/// The row of the first that is left.
fn row_question(state: &State, at: u32, name: &Bytes) -> Result<Next, NoMemory>
    ensures { IfOk result (λ next. next
        ≡ of_first state.now.left at Query.Row (unresolved_next state.now name.now)) }
{
    match state.left.first() {
        Some(token) => question(at, Query::Row(token)),
        None => unresolved_next(state, name),
    }
}

impl TypeStage {
    pub(crate) fn question(&self, state: &State) -> Result<Next, NoMemory>
        ensures { IfOk result (λ next. next ≡ type_question state.now self.now) }
    {
        match self {
            TypeStage::AssemblyRef { at, token, .. } => question(*at, Query::Row(*token)),
            TypeStage::Assembly { left, name, .. } => assembly_question(state, *left, name),
            TypeStage::ByName { at, wanted, .. } => question(*at, wanted.search()?),
            TypeStage::ExportedTypes { at, .. } => {
                question(*at, Query::Members(Token::ROOT, table::EXPORTED_TYPE))
            }
            TypeStage::ExportedType { at, wanted } => row_question(state, *at, &wanted.name),
            TypeStage::NestedTypes { at, of, .. } => question(*at, Query::Links(*of, Link::Nested)),
            TypeStage::NestedRow { at, name } => row_question(state, *at, name),
            TypeStage::NestedType { at, token, .. } => question(*at, Query::Row(*token)),
        }
    }
}

/// What the reply leads to.
pub(crate) fn after_named_type(
    alloc: Global,
    state: &State,
    stage: &TypeStage,
    reply: &Reply,
) -> Result<Advance, NoMemory>
    ensures { IfOk result (λ advance. advance ≡ after_named_type state.now stage.now reply.now) }
{
    match stage {
        TypeStage::AssemblyRef { wanted, .. } => after_assembly_ref(alloc, state, wanted, reply),
        TypeStage::Assembly {
            left,
            name,
            wanted,
            forwards,
        } => after_assembly_row(alloc, state, *left, name, wanted, *forwards, reply),
        TypeStage::ByName {
            at,
            wanted,
            forwards,
        } => after_search(alloc, state, *at, wanted, *forwards, reply),
        TypeStage::ExportedTypes { at, wanted } => after_exported_types(alloc, *at, wanted, reply),
        TypeStage::ExportedType { at, wanted } => {
            after_exported_type(alloc, state, *at, wanted, reply)
        }
        TypeStage::NestedTypes { at, name, .. } => after_nested_types(alloc, *at, name, reply),
        TypeStage::NestedRow { at, name } => after_nested_row(alloc, *at, name, reply),
        TypeStage::NestedType { at, token, name } => {
            after_nested_type(alloc, state, *at, *token, name, reply)
        }
    }
}
