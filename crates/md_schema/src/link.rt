ghost use Rattle.std.specs.Prelude.{◌≡◌, Some};
ghost use Rattle.md_schema.specs.Link.{all_links, link_column_of, link_kind_of, link_name_of, link_table_of};
ghost use Rattle.std.specs.Option.{option_map};
ghost use Rattle.md_schema.specs.Reference.{may_name_of};

use crate::column::ColumnKind;
use crate::reference::may_name;
use crate::table;
use crate::table_columns::column_at;

/// A column by which rows of a table belong to the rows that it names. A link has the name of its table, but `Nested`
/// is the second link of `NestedClass`.
#[derive(Clone, Copy, Debug, Drop, PartialEq, Eq, PartialOrd, Ord, Hash)]
pub enum Link {
    InterfaceImpl,
    Constant,
    CustomAttribute,
    FieldMarshal,
    DeclSecurity,
    ClassLayout,
    FieldLayout,
    EventMap,
    PropertyMap,
    MethodSemantics,
    MethodImpl,
    ImplMap,
    FieldRVA,
    NestedClass,
    Nested,
    GenericParam,
    GenericParamConstraint,
}

/// A link's name, its table, and the number of the column of that table which it reads.
#[derive(Clone, Copy, Debug, Drop, PartialEq, Eq)]
pub struct LinkColumn {
    pub name: &'static str,
    pub table: u8,
    pub column: u8,
}

/// The links, in the order of their tables.
static LINKS: [Link; 17] = [
    Link::InterfaceImpl,
    Link::Constant,
    Link::CustomAttribute,
    Link::FieldMarshal,
    Link::DeclSecurity,
    Link::ClassLayout,
    Link::FieldLayout,
    Link::EventMap,
    Link::PropertyMap,
    Link::MethodSemantics,
    Link::MethodImpl,
    Link::ImplMap,
    Link::FieldRVA,
    Link::NestedClass,
    Link::Nested,
    Link::GenericParam,
    Link::GenericParamConstraint,
];

/// Returns all links, in the order of their tables.
pub fn links() -> &'static [Link]
    ensures { result.now ≡ all_links }
{
    &LINKS
}

/// Returns the name of a link, its table, and the number of its column (ECMA-335 II.22).
pub fn link_column(link: Link) -> LinkColumn
    ensures name { result.name.now ≡ link_name_of link }
    ensures table { result.table ≡ link_table_of link }
    ensures column { result.column ≡ link_column_of link }
{
    let (name, table, column) = match link {
        Link::InterfaceImpl => ("InterfaceImpl", table::INTERFACE_IMPL, 0),
        Link::Constant => ("Constant", table::CONSTANT, 1),
        Link::CustomAttribute => ("CustomAttribute", table::CUSTOM_ATTRIBUTE, 0),
        Link::FieldMarshal => ("FieldMarshal", table::FIELD_MARSHAL, 0),
        Link::DeclSecurity => ("DeclSecurity", table::DECL_SECURITY, 1),
        Link::ClassLayout => ("ClassLayout", table::CLASS_LAYOUT, 2),
        Link::FieldLayout => ("FieldLayout", table::FIELD_LAYOUT, 1),
        Link::EventMap => ("EventMap", table::EVENT_MAP, 0),
        Link::PropertyMap => ("PropertyMap", table::PROPERTY_MAP, 0),
        Link::MethodSemantics => ("MethodSemantics", table::METHOD_SEMANTICS, 2),
        Link::MethodImpl => ("MethodImpl", table::METHOD_IMPL, 0),
        Link::ImplMap => ("ImplMap", table::IMPL_MAP, 1),
        Link::FieldRVA => ("FieldRVA", table::FIELD_RVA, 1),
        Link::NestedClass => ("NestedClass", table::NESTED_CLASS, 0),
        Link::Nested => ("Nested", table::NESTED_CLASS, 1),
        Link::GenericParam => ("GenericParam", table::GENERIC_PARAM, 2),
        Link::GenericParamConstraint => {
            ("GenericParamConstraint", table::GENERIC_PARAM_CONSTRAINT, 0)
        }
    };
    LinkColumn {
        name,
        table,
        column,
    }
}

/// Returns what the column of a link holds: a row of one table, or a coded index.
pub fn link_kind(link: Link) -> ColumnKind
    ensures { link_kind_of link ≡ Some result }
{
    let place = link_column(link);
    let Some(column) = column_at(place.table, place.column) else {
        unreachable!()
    };
    column.kind
}

/// Whether rows of the table have this link: whether its column may name them.
pub fn has_link(table: u8, link: Link) -> bool
    ensures { Some result ≡ option_map (λ kind. may_name_of kind table) (link_kind_of link) }
{
    may_name(link_kind(link), table)
}
