//! References, and what the replies about them lead to (ECMA-335 II.22.25, II.22.29, II.22.38, II.22.39).

ghost use Rattle.std.specs.Prelude.{◌≡◌, codes, false, IfOk};
ghost use Rattle.node_model.specs.RowTexts.{token_named};
ghost use Rattle.sig_tree.specs.declared.tree.TypeSig.TheViews.{out-TypeSig};
ghost use Rattle.resolver.specs.Found.{on_row, on_sig, unresolved};
ghost use Rattle.resolver.specs.Questions.{reference_question};
ghost use Rattle.resolver.specs.References.{after_class, after_reference, after_scope, after_spec, row_name};
ghost use Rattle.resolver.specs.References.{row_type_name, spec_token, spec_type_token};

use crate::cells::{text_named, token_named};
use crate::found::{found, hop, hop_for, stopped, unresolved};
use crate::named_types::{TypeName, TypeStage};
use crate::next::{Next, question};
use crate::state::{Advance, Stage, State};
use crate::waiting::Waiting;
use cil_base::{Bytes, List, NoMemory, Token};
use md_schema::table;
use node_model::{Query, Reply, RowValue};
use sig_tree::{SigTree, TypeSig};
use std::alloc::Global;

/// The first question about a reference.
#[derive(Drop)]
pub(crate) enum ReferenceStage {
    /// The row of a TypeRef.
    TypeRef { at: u32, token: Token },
    /// The signature of a TypeSpec.
    TypeSpec { at: u32, token: Token },
    /// The row of a MethodSpec.
    MethodSpec { at: u32, token: Token },
    /// The row of a MemberRef.
    MemberRef { at: u32, token: Token },
}

impl ReferenceStage {
    pub(crate) fn question(&self) -> Result<Next, NoMemory>
        ensures { IfOk result (λ next. next ≡ reference_question self.now) }
    {
        match self {
            ReferenceStage::TypeRef { at, token } => question(*at, Query::Row(*token)),
            ReferenceStage::TypeSpec { at, token } => question(*at, Query::Sig(*token)),
            ReferenceStage::MethodSpec { at, token } => question(*at, Query::Row(*token)),
            ReferenceStage::MemberRef { at, token } => question(*at, Query::Row(*token)),
        }
    }
}

/// The cell Name of a row.
pub(crate) fn row_name(alloc: Global, row: &RowValue) -> Result<Bytes, NoMemory>
    ensures { IfOk result (λ name. name ≡ row_name row.now) }
{
    List::from_slice(alloc, text_named(row, b"Name"))
}

/// The type that a row names.
fn row_type_name(alloc: Global, row: &RowValue) -> Result<TypeName, NoMemory>
    ensures { IfOk result (λ name. name ≡ row_type_name row.now) }
{
    let namespace = List::from_slice(alloc, text_named(row, b"Namespace"))?;
    let name = row_name(alloc, row)?;
    Ok(TypeName { namespace, name })
}

fn unresolved_row(alloc: Global, state: &State, row: &RowValue) -> Result<Advance, NoMemory>
    ensures { IfOk result (λ advance. advance ≡ unresolved state.now (row_name row.now)) }
{
    let name = row_name(alloc, row)?;
    unresolved(state, &name)
}

/// A type of the module's own.
fn in_module(alloc: Global, at: u32, row: &RowValue) -> Result<Advance, NoMemory>
    ensures { IfOk result (λ advance. advance
        ≡ Advance.To (Stage.NamedType (TypeStage.ByName at (row_type_name row.now) false))) }
{
    let wanted = row_type_name(alloc, row)?;
    Ok(Advance::To(Stage::NamedType(TypeStage::ByName {
        at,
        wanted,
        forwards: false,
    })))
}

/// A type of another assembly.
fn in_assembly(alloc: Global, at: u32, row: &RowValue, token: Token) -> Result<Advance, NoMemory>
    ensures { IfOk result (λ advance. advance
        ≡ Advance.To (Stage.NamedType (TypeStage.AssemblyRef at token (row_type_name row.now)))) }
{
    let wanted = row_type_name(alloc, row)?;
    Ok(Advance::To(Stage::NamedType(TypeStage::AssemblyRef { at, token, wanted })))
}

/// A TypeRef by its scope.
fn after_scope(
    alloc: Global,
    state: &State,
    at: u32,
    row: &RowValue,
    scope: Option<Token>,
) -> Result<Advance, NoMemory>
    ensures { IfOk result (λ advance. advance ≡ after_scope state.now at row.now scope) }
{
    let Some(scope) = scope else {
        return unresolved_row(alloc, state, row);
    };
    if scope.table == table::MODULE {
        return in_module(alloc, at, row);
    }
    if scope.table == table::ASSEMBLY_REF {
        return in_assembly(alloc, at, row, scope);
    }
    if scope.table == table::TYPE_REF {
        let first = Waiting::Nested(row_name(alloc, row)?);
        return hop_for(alloc, state, first, at, scope);
    }
    unresolved_row(alloc, state, row)
}

fn spec_type_token(ty: &TypeSig) -> Option<Token>
    ensures { result ≡ spec_type_token (out-TypeSig ty.now) }
{
    match ty {
        TypeSig::Class(token) => Some(*token),
        TypeSig::Value(token) => Some(*token),
        TypeSig::Inst { of, .. } => Some(*of),
        _ => None,
    }
}

/// The type of a TypeSpec that is a class, a value type or an instance of one.
fn spec_token(sig: &SigTree) -> Option<Token>
    ensures { result ≡ spec_token sig.now }
{
    match sig {
        SigTree::Plain(ty) => spec_type_token(ty),
        _ => None,
    }
}

/// A token that a TypeSpec or a MethodSpec leads to.
fn after_spec(
    alloc: Global,
    state: &State,
    at: u32,
    token: Option<Token>,
) -> Result<Advance, NoMemory>
    ensures { IfOk result (λ advance. advance ≡ after_spec state.now at token) }
{
    match token {
        Some(token) => hop(alloc, state, at, token),
        None => unresolved(state, &List::new(alloc)),
    }
}

/// A MemberRef by its Class.
fn after_class(
    alloc: Global,
    state: &State,
    at: u32,
    member: Token,
    name: Bytes,
    class: Option<Token>,
) -> Result<Advance, NoMemory>
    ensures { IfOk result (λ advance. advance ≡ after_class state.now at member name class) }
{
    let Some(class) = class else {
        return unresolved(state, &name);
    };
    if class.table == table::METHOD_DEF {
        return found(alloc, state, at, class);
    }
    if class.table == table::MODULE_REF {
        return unresolved(state, &name);
    }
    hop_for(alloc, state, Waiting::Class { at, member, name }, at, class)
}

fn after_type_ref(alloc: Global, state: &State, at: u32, reply: &Reply) -> Result<Advance, NoMemory>
    ensures { IfOk result (λ advance. advance
        ≡ on_row reply.now (λ row. after_scope state.now at row (token_named (codes "ResolutionScope") row))) }
{
    match reply {
        Reply::Row(row) => {
            let scope = token_named(row, b"ResolutionScope");
            after_scope(alloc, state, at, row, scope)
        }
        _ => stopped(alloc, reply),
    }
}

fn after_type_spec(
    alloc: Global,
    state: &State,
    at: u32,
    reply: &Reply,
) -> Result<Advance, NoMemory>
    ensures { IfOk result (λ advance. advance
        ≡ on_sig reply.now (λ sig. after_spec state.now at (spec_token sig))) }
{
    match reply {
        Reply::Sig(_, sig) => after_spec(alloc, state, at, spec_token(sig.tree())),
        _ => stopped(alloc, reply),
    }
}

fn after_method_spec(
    alloc: Global,
    state: &State,
    at: u32,
    reply: &Reply,
) -> Result<Advance, NoMemory>
    ensures { IfOk result (λ advance. advance
        ≡ on_row reply.now (λ row. after_spec state.now at (token_named (codes "Method") row))) }
{
    match reply {
        Reply::Row(row) => after_spec(alloc, state, at, token_named(row, b"Method")),
        _ => stopped(alloc, reply),
    }
}

fn after_member_ref(
    alloc: Global,
    state: &State,
    at: u32,
    member: Token,
    reply: &Reply,
) -> Result<Advance, NoMemory>
    ensures { IfOk result (λ advance. advance ≡ on_row reply.now
        (λ row. after_class state.now at member (row_name row) (token_named (codes "Class") row))) }
{
    match reply {
        Reply::Row(row) => {
            let name = row_name(alloc, row)?;
            let class = token_named(row, b"Class");
            after_class(alloc, state, at, member, name, class)
        }
        _ => stopped(alloc, reply),
    }
}

/// What the reply leads to.
pub(crate) fn after_reference(
    alloc: Global,
    state: &State,
    stage: &ReferenceStage,
    reply: &Reply,
) -> Result<Advance, NoMemory>
    ensures { IfOk result (λ advance. advance ≡ after_reference state.now stage.now reply.now) }
{
    match stage {
        ReferenceStage::TypeRef { at, .. } => after_type_ref(alloc, state, *at, reply),
        ReferenceStage::TypeSpec { at, .. } => after_type_spec(alloc, state, *at, reply),
        ReferenceStage::MethodSpec { at, .. } => after_method_spec(alloc, state, *at, reply),
        ReferenceStage::MemberRef { at, token } => {
            after_member_ref(alloc, state, *at, *token, reply)
        }
    }
}
