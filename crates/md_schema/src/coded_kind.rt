//! The thirteen kinds of coded index, and the tables that each may name (ECMA-335 II.24.2.6).

ghost use Rattle.std.specs.Prelude.{◌≡◌, ◌≤◌};
ghost use Rattle.md_schema.specs.CodedKind.{tables_of, tag_bits_of};

use crate::table::{
    ASSEMBLY, ASSEMBLY_REF, DECL_SECURITY, EVENT, EXPORTED_TYPE, FIELD, FILE, GENERIC_PARAM,
    GENERIC_PARAM_CONSTRAINT, INTERFACE_IMPL, MANIFEST_RESOURCE, MEMBER_REF, METHOD_DEF,
    METHOD_SPEC, MODULE, MODULE_REF, PARAM, PROPERTY, STAND_ALONE_SIG, TYPE_DEF, TYPE_REF,
    TYPE_SPEC,
};

/// A kind of coded index: which tables it may name, and by which tags.
#[derive(Clone, Copy, Debug, Drop, PartialEq, Eq)]
pub enum CodedKind {
    TypeDefOrRef,
    HasConstant,
    HasCustomAttribute,
    HasFieldMarshal,
    HasDeclSecurity,
    MemberRefParent,
    HasSemantics,
    MethodDefOrRef,
    MemberForwarded,
    Implementation,
    CustomAttributeType,
    ResolutionScope,
    TypeOrMethodDef,
}

/// Returns how many low bits of a coded index are its tag: 1 to 5 (ECMA-335 II.24.2.6).
pub fn tag_bits(kind: CodedKind) -> u32
    ensures bits { result ≡ tag_bits_of kind }
    ensures few { result ≤ 5 }
{
    match kind {
        CodedKind::HasCustomAttribute => 5,
        CodedKind::MemberRefParent | CodedKind::CustomAttributeType => 3,
        CodedKind::TypeDefOrRef
        | CodedKind::HasConstant
        | CodedKind::HasDeclSecurity
        | CodedKind::Implementation
        | CodedKind::ResolutionScope => 2,
        CodedKind::HasFieldMarshal
        | CodedKind::HasSemantics
        | CodedKind::MethodDefOrRef
        | CodedKind::MemberForwarded
        | CodedKind::TypeOrMethodDef => 1,
    }
}

/// The tables of HasCustomAttribute, by tag.
static ATTRIBUTE_PARENTS: [Option<u8>; 22] = [
    Some(METHOD_DEF),
    Some(FIELD),
    Some(TYPE_REF),
    Some(TYPE_DEF),
    Some(PARAM),
    Some(INTERFACE_IMPL),
    Some(MEMBER_REF),
    Some(MODULE),
    Some(DECL_SECURITY),
    Some(PROPERTY),
    Some(EVENT),
    Some(STAND_ALONE_SIG),
    Some(MODULE_REF),
    Some(TYPE_SPEC),
    Some(ASSEMBLY),
    Some(ASSEMBLY_REF),
    Some(FILE),
    Some(EXPORTED_TYPE),
    Some(MANIFEST_RESOURCE),
    Some(GENERIC_PARAM),
    Some(GENERIC_PARAM_CONSTRAINT),
    Some(METHOD_SPEC),
];

/// Returns the table of each tag, from tag 0. An unused tag has none (ECMA-335 II.24.2.6).
pub fn tables(kind: CodedKind) -> &'static [Option<u8>]
    ensures { result.now ≡ tables_of kind }
{
    match kind {
        CodedKind::TypeDefOrRef => &[Some(TYPE_DEF), Some(TYPE_REF), Some(TYPE_SPEC)],
        CodedKind::HasConstant => &[Some(FIELD), Some(PARAM), Some(PROPERTY)],
        CodedKind::HasCustomAttribute => &ATTRIBUTE_PARENTS,
        CodedKind::HasFieldMarshal => &[Some(FIELD), Some(PARAM)],
        CodedKind::HasDeclSecurity => &[Some(TYPE_DEF), Some(METHOD_DEF), Some(ASSEMBLY)],
        CodedKind::MemberRefParent => &[
            Some(TYPE_DEF),
            Some(TYPE_REF),
            Some(MODULE_REF),
            Some(METHOD_DEF),
            Some(TYPE_SPEC),
        ],
        CodedKind::HasSemantics => &[Some(EVENT), Some(PROPERTY)],
        CodedKind::MethodDefOrRef => &[Some(METHOD_DEF), Some(MEMBER_REF)],
        CodedKind::MemberForwarded => &[Some(FIELD), Some(METHOD_DEF)],
        CodedKind::Implementation => &[Some(FILE), Some(ASSEMBLY_REF), Some(EXPORTED_TYPE)],
        CodedKind::CustomAttributeType => &[None, None, Some(METHOD_DEF), Some(MEMBER_REF)],
        CodedKind::ResolutionScope => &[
            Some(MODULE),
            Some(MODULE_REF),
            Some(ASSEMBLY_REF),
            Some(TYPE_REF),
        ],
        CodedKind::TypeOrMethodDef => &[Some(TYPE_DEF), Some(METHOD_DEF)],
    }
}
