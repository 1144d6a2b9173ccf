//! The kinds of keys that the rows of each table have (ECMA-335 II.22).

ghost use Rattle.std.specs.Prelude.{◌≡◌, ◌<◌, List, length, map};
ghost use Rattle.std.specs.Borrow.{Bor};
ghost use Rattle.std.specs.List.{range_with_len};
ghost use Rattle.node_model.specs.Places.{key_of_kind, kinds_of, root_kinds};
ghost use Rattle.node_model.specs.declared.kinds.KeyKind.{KeyKind};

use crate::key::Key;
use crate::kinds::KeyKind::{Body, Data, Facts, Linked, Owned, Resource, Row, Sig};
use cil_base::Token;
use md_schema::{Link, table};

/// A kind of key: what of a row it stands for.
#[derive(Clone, Copy, Drop, PartialEq, Eq)]
pub enum KeyKind {
    Row,
    Sig,
    /// The rows of a table.
    Owned(u8),
    Linked(Link),
    Body,
    Data,
    Resource,
    Facts,
}

/// The kinds of each table, by its number. They follow from the schema, and stand here since each access of a slot asks
/// for them.
static KINDS: [&[KeyKind]; 45] = [
    // MODULE
    &[Row, Linked(Link::CustomAttribute)],
    // TYPE_REF
    &[Row, Linked(Link::CustomAttribute)],
    // TYPE_DEF
    &[
        Row,
        Owned(table::FIELD),
        Owned(table::METHOD_DEF),
        Linked(Link::InterfaceImpl),
        Linked(Link::CustomAttribute),
        Linked(Link::DeclSecurity),
        Linked(Link::ClassLayout),
        Linked(Link::EventMap),
        Linked(Link::PropertyMap),
        Linked(Link::MethodImpl),
        Linked(Link::NestedClass),
        Linked(Link::Nested),
        Linked(Link::GenericParam),
    ],
    // no table
    &[],
    // FIELD
    &[
        Row,
        Sig,
        Linked(Link::Constant),
        Linked(Link::CustomAttribute),
        Linked(Link::FieldMarshal),
        Linked(Link::FieldLayout),
        Linked(Link::ImplMap),
        Linked(Link::FieldRVA),
    ],
    // no table
    &[],
    // METHOD_DEF
    &[
        Row,
        Sig,
        Owned(table::PARAM),
        Linked(Link::CustomAttribute),
        Linked(Link::DeclSecurity),
        Linked(Link::ImplMap),
        Linked(Link::GenericParam),
        Body,
    ],
    // no table
    &[],
    // PARAM
    &[
        Row,
        Linked(Link::Constant),
        Linked(Link::CustomAttribute),
        Linked(Link::FieldMarshal),
    ],
    // INTERFACE_IMPL
    &[Row, Linked(Link::CustomAttribute)],
    // MEMBER_REF
    &[Row, Sig, Linked(Link::CustomAttribute)],
    // CONSTANT
    &[Row],
    // CUSTOM_ATTRIBUTE
    &[Row],
    // FIELD_MARSHAL
    &[Row],
    // DECL_SECURITY
    &[Row, Linked(Link::CustomAttribute)],
    // CLASS_LAYOUT
    &[Row],
    // FIELD_LAYOUT
    &[Row],
    // STAND_ALONE_SIG
    &[Row, Sig, Linked(Link::CustomAttribute)],
    // EVENT_MAP
    &[Row, Owned(table::EVENT)],
    // no table
    &[],
    // EVENT
    &[
        Row,
        Linked(Link::CustomAttribute),
        Linked(Link::MethodSemantics),
    ],
    // PROPERTY_MAP
    &[Row, Owned(table::PROPERTY)],
    // no table
    &[],
    // PROPERTY
    &[
        Row,
        Sig,
        Linked(Link::Constant),
        Linked(Link::CustomAttribute),
        Linked(Link::MethodSemantics),
    ],
    // METHOD_SEMANTICS
    &[Row],
    // METHOD_IMPL
    &[Row],
    // MODULE_REF
    &[Row, Linked(Link::CustomAttribute)],
    // TYPE_SPEC
    &[Row, Sig, Linked(Link::CustomAttribute)],
    // IMPL_MAP
    &[Row],
    // FIELD_RVA
    &[Row, Data],
    // no table
    &[],
    // no table
    &[],
    // ASSEMBLY
    &[
        Row,
        Linked(Link::CustomAttribute),
        Linked(Link::DeclSecurity),
    ],
    // ASSEMBLY_PROCESSOR
    &[Row],
    // ASSEMBLY_OS
    &[Row],
    // ASSEMBLY_REF
    &[Row, Linked(Link::CustomAttribute)],
    // ASSEMBLY_REF_PROCESSOR
    &[Row],
    // ASSEMBLY_REF_OS
    &[Row],
    // FILE
    &[Row, Linked(Link::CustomAttribute)],
    // EXPORTED_TYPE
    &[Row, Linked(Link::CustomAttribute)],
    // MANIFEST_RESOURCE
    &[Row, Linked(Link::CustomAttribute), Resource],
    // NESTED_CLASS
    &[Row],
    // GENERIC_PARAM
    &[
        Row,
        Linked(Link::CustomAttribute),
        Linked(Link::GenericParamConstraint),
    ],
    // METHOD_SPEC
    &[Row, Sig, Linked(Link::CustomAttribute)],
    // GENERIC_PARAM_CONSTRAINT
    &[Row, Linked(Link::CustomAttribute)],
];

/// The kinds of the root's keys: the facts, and its lists.
static ROOT_KINDS: [KeyKind; 18] = [
    Facts,
    Owned(table::MODULE),
    Owned(table::TYPE_REF),
    Owned(table::TYPE_DEF),
    Owned(table::MEMBER_REF),
    Owned(table::STAND_ALONE_SIG),
    Owned(table::MODULE_REF),
    Owned(table::TYPE_SPEC),
    Owned(table::ASSEMBLY),
    Owned(table::ASSEMBLY_PROCESSOR),
    Owned(table::ASSEMBLY_OS),
    Owned(table::ASSEMBLY_REF),
    Owned(table::ASSEMBLY_REF_PROCESSOR),
    Owned(table::ASSEMBLY_REF_OS),
    Owned(table::FILE),
    Owned(table::EXPORTED_TYPE),
    Owned(table::MANIFEST_RESOURCE),
    Owned(table::METHOD_SPEC),
];

/// The kinds of each table, by its number.
fn kinds_by_table() -> &'static [&'static [KeyKind]]
    ensures { map (λ (kinds : Bor (List KeyKind)). kinds.now) result.now ≡ map kinds_of (range_with_len 0 45) }
{
    &KINDS
}

/// The kinds of keys that the rows of a table have. None where the number is that of no table.
pub fn row_kinds(table: u8) -> &'static [KeyKind]
    ensures kinds { result.now ≡ kinds_of table }
    ensures few { length result.now < 256 }
{
    match kinds_by_table().get(table as usize) {
        Some(&kinds) => kinds,
        None => &[],
    }
}

/// The kinds of the root's keys: the facts, and the root's lists by the numbers of their tables.
pub fn root_kinds() -> &'static [KeyKind]
    ensures kinds { result.now ≡ root_kinds }
    ensures few { length result.now < 256 }
{
    &ROOT_KINDS
}

/// The key of a row, or of the root, of this kind.
pub fn key_of_kind(token: Token, kind: KeyKind) -> Key
    ensures { result ≡ key_of_kind token kind }
{
    match kind {
        Row => Key::Row(token),
        Sig => Key::Sig(token),
        Owned(table) => Key::Owned(token, table),
        Linked(link) => Key::Linked(token, link),
        Body => Key::Body(token),
        Data => Key::Data(token),
        Resource => Key::Resource(token),
        Facts => Key::Facts,
    }
}
