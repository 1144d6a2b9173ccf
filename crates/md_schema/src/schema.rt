//! The 38 tables as data: name, place and columns of each (ECMA-335 II.22).

ghost use Rattle.std.specs.Prelude.{◌≡◌};
ghost use Rattle.std.specs.Option.{option_map};
ghost use Rattle.md_schema.specs.Entry.{table_entry_of, numbered_tables, seen_table};
ghost use Rattle.md_schema.specs.Schema.{tables};

use crate::coded_kind::CodedKind;
use crate::column::Column;
use crate::column::ColumnKind::{
    Blob, Coded, Guid, Index, Offset, Rva, Sig, Start, Text, U8Pad, U16, U32,
};
use crate::holder::Holder;
use crate::link::Link;
use crate::table;

/// A table: its name, where its rows are listed, and its columns.
pub struct Table {
    pub name: &'static str,
    pub holder: Holder,
    pub columns: &'static [Column],
}

macro_rules! table {
    ($name:literal, $holder:expr, $($column:literal $kind:expr),+) => {
        Some(Table {
            name: $name,
            holder: $holder,
            columns: &[$(Column { name: $column, kind: $kind }),+],
        })
    };
}

/// The tables by number. A number that is not used has none.
static TABLES: [Option<Table>; 45] = [
    table!("Module", Holder::Root,
        "Generation" U16, "Name" Text, "Mvid" Guid, "EncId" Guid, "EncBaseId" Guid
    ),
    table!("TypeRef", Holder::Root,
        "ResolutionScope" Coded(CodedKind::ResolutionScope), "Name" Text, "Namespace" Text
    ),
    table!("TypeDef", Holder::Root,
        "Flags" U32, "Name" Text, "Namespace" Text, "Extends" Coded(CodedKind::TypeDefOrRef),
        "FieldList" Start(table::FIELD), "MethodList" Start(table::METHOD_DEF)
    ),
    None,
    table!("Field", Holder::Owner(table::TYPE_DEF), "Flags" U16, "Name" Text, "Signature" Sig),
    None,
    table!("MethodDef", Holder::Owner(table::TYPE_DEF),
        "RVA" Rva, "ImplFlags" U16, "Flags" U16, "Name" Text, "Signature" Sig,
        "ParamList" Start(table::PARAM)
    ),
    None,
    table!("Param", Holder::Owner(table::METHOD_DEF), "Flags" U16, "Sequence" U16, "Name" Text),
    table!("InterfaceImpl", Holder::Link(Link::InterfaceImpl),
        "Class" Index(table::TYPE_DEF), "Interface" Coded(CodedKind::TypeDefOrRef)
    ),
    table!("MemberRef", Holder::Root,
        "Class" Coded(CodedKind::MemberRefParent), "Name" Text, "Signature" Sig
    ),
    table!("Constant", Holder::Link(Link::Constant),
        "Type" U8Pad, "Parent" Coded(CodedKind::HasConstant), "Value" Blob
    ),
    table!("CustomAttribute", Holder::Link(Link::CustomAttribute),
        "Parent" Coded(CodedKind::HasCustomAttribute), "Type" Coded(CodedKind::CustomAttributeType),
        "Value" Blob
    ),
    table!("FieldMarshal", Holder::Link(Link::FieldMarshal),
        "Parent" Coded(CodedKind::HasFieldMarshal), "NativeType" Blob
    ),
    table!("DeclSecurity", Holder::Link(Link::DeclSecurity),
        "Action" U16, "Parent" Coded(CodedKind::HasDeclSecurity), "PermissionSet" Blob
    ),
    table!("ClassLayout", Holder::Link(Link::ClassLayout),
        "PackingSize" U16, "ClassSize" U32, "Parent" Index(table::TYPE_DEF)
    ),
    table!("FieldLayout", Holder::Link(Link::FieldLayout),
        "Offset" U32, "Field" Index(table::FIELD)
    ),
    table!("StandAloneSig", Holder::Root, "Signature" Sig),
    table!("EventMap", Holder::Link(Link::EventMap),
        "Parent" Index(table::TYPE_DEF), "EventList" Start(table::EVENT)
    ),
    None,
    table!("Event", Holder::Owner(table::EVENT_MAP),
        "Flags" U16, "Name" Text, "EventType" Coded(CodedKind::TypeDefOrRef)
    ),
    table!("PropertyMap", Holder::Link(Link::PropertyMap),
        "Parent" Index(table::TYPE_DEF), "PropertyList" Start(table::PROPERTY)
    ),
    None,
    table!("Property", Holder::Owner(table::PROPERTY_MAP), "Flags" U16, "Name" Text, "Type" Sig),
    table!("MethodSemantics", Holder::Link(Link::MethodSemantics),
        "Semantics" U16, "Method" Index(table::METHOD_DEF),
        "Association" Coded(CodedKind::HasSemantics)
    ),
    table!("MethodImpl", Holder::Link(Link::MethodImpl),
        "Class" Index(table::TYPE_DEF), "MethodBody" Coded(CodedKind::MethodDefOrRef),
        "MethodDeclaration" Coded(CodedKind::MethodDefOrRef)
    ),
    table!("ModuleRef", Holder::Root, "Name" Text),
    table!("TypeSpec", Holder::Root, "Signature" Sig),
    table!("ImplMap", Holder::Link(Link::ImplMap),
        "MappingFlags" U16, "MemberForwarded" Coded(CodedKind::MemberForwarded), "ImportName" Text,
        "ImportScope" Index(table::MODULE_REF)
    ),
    table!("FieldRVA", Holder::Link(Link::FieldRVA), "RVA" Rva, "Field" Index(table::FIELD)),
    None,
    None,
    table!("Assembly", Holder::Root,
        "HashAlgId" U32, "Major" U16, "Minor" U16, "Build" U16, "Revision" U16, "Flags" U32,
        "PublicKey" Blob, "Name" Text, "Culture" Text
    ),
    table!("AssemblyProcessor", Holder::Root, "Processor" U32),
    table!("AssemblyOS", Holder::Root, "PlatformID" U32, "MajorVersion" U32, "MinorVersion" U32),
    table!("AssemblyRef", Holder::Root,
        "Major" U16, "Minor" U16, "Build" U16, "Revision" U16, "Flags" U32, "PublicKeyOrToken" Blob,
        "Name" Text, "Culture" Text, "HashValue" Blob
    ),
    table!("AssemblyRefProcessor", Holder::Root,
        "Processor" U32, "AssemblyRef" Index(table::ASSEMBLY_REF)
    ),
    table!("AssemblyRefOS", Holder::Root,
        "PlatformID" U32, "MajorVersion" U32, "MinorVersion" U32,
        "AssemblyRef" Index(table::ASSEMBLY_REF)
    ),
    table!("File", Holder::Root, "Flags" U32, "Name" Text, "HashValue" Blob),
    table!("ExportedType", Holder::Root,
        "Flags" U32, "TypeDefId" U32, "Name" Text, "Namespace" Text,
        "Implementation" Coded(CodedKind::Implementation)
    ),
    table!("ManifestResource", Holder::Root,
        "Offset" Offset, "Flags" U32, "Name" Text, "Implementation" Coded(CodedKind::Implementation)
    ),
    table!("NestedClass", Holder::Link(Link::NestedClass),
        "NestedClass" Index(table::TYPE_DEF), "EnclosingClass" Index(table::TYPE_DEF)
    ),
    table!("GenericParam", Holder::Link(Link::GenericParam),
        "Number" U16, "Flags" U16, "Owner" Coded(CodedKind::TypeOrMethodDef), "Name" Text
    ),
    table!("MethodSpec", Holder::Root,
        "Method" Coded(CodedKind::MethodDefOrRef), "Instantiation" Sig
    ),
    table!("GenericParamConstraint", Holder::Link(Link::GenericParamConstraint),
        "Owner" Index(table::GENERIC_PARAM), "Constraint" Coded(CodedKind::TypeDefOrRef)
    ),
];

/// Returns the tables by number.
fn all_tables() -> &'static [Option<Table>]
    ensures { numbered_tables 0 result.now ≡ tables }
{
    &TABLES
}

/// Returns the table of this number.
pub fn entry(table: u8) -> Option<&'static Table>
    ensures { option_map (λ found. seen_table table found.now) result ≡ table_entry_of table }
{
    all_tables().get(table as usize)?.as_ref()
}
