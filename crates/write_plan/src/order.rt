//! The order of the walk: the tables, and the lists in which the rows of each stand (ECMA-335 II.22).

ghost use Rattle.std.specs.Prelude.{◌≡◌, ◌++◌, ◌∷◌, [], map, IfOk, OnOk};
ghost use Rattle.std.specs.List.{filter};
ghost use Rattle.md_schema.specs.declared.link.Link.TheVariants.{Nested};
ghost use Rattle.node_model.specs.KeyKinds.{has_kind};
ghost use Rattle.node_model.specs.RowLists.{list_key};
ghost use Rattle.node_model.specs.declared.key.Key.TheVariants.{Linked};
ghost use Rattle.write_plan.specs.GraphWalk.{list_keys, nested_keys, walk_tables};

use cil_base::{List, NoMemory, Token};
use md_schema::{Holder, Link, table, table_holder};
use node_model::{Key, has_kind, is_root_table};
use std::alloc::Global;

/// The tables in the order of the walk.
static WALK: [u8; 38] = [
    table::MODULE,
    table::TYPE_REF,
    table::TYPE_DEF,
    table::MEMBER_REF,
    table::STAND_ALONE_SIG,
    table::MODULE_REF,
    table::TYPE_SPEC,
    table::ASSEMBLY,
    table::ASSEMBLY_PROCESSOR,
    table::ASSEMBLY_OS,
    table::ASSEMBLY_REF,
    table::ASSEMBLY_REF_PROCESSOR,
    table::ASSEMBLY_REF_OS,
    table::FILE,
    table::EXPORTED_TYPE,
    table::MANIFEST_RESOURCE,
    table::METHOD_SPEC,
    table::FIELD,
    table::METHOD_DEF,
    table::PARAM,
    table::EVENT_MAP,
    table::EVENT,
    table::PROPERTY_MAP,
    table::PROPERTY,
    table::INTERFACE_IMPL,
    table::METHOD_SEMANTICS,
    table::METHOD_IMPL,
    table::CLASS_LAYOUT,
    table::FIELD_LAYOUT,
    table::FIELD_RVA,
    table::IMPL_MAP,
    table::NESTED_CLASS,
    table::GENERIC_PARAM,
    table::GENERIC_PARAM_CONSTRAINT,
    table::CONSTANT,
    table::FIELD_MARSHAL,
    table::DECL_SECURITY,
    table::CUSTOM_ATTRIBUTE,
];

/// The tables in the order of the walk: those that the image itself lists, then each behind the tables whose rows list
/// its rows.
pub(crate) fn walk_order() -> &'static [u8]
    ensures { result.now ≡ walk_tables }
{
    &WALK
}

/// The list of an owner in which rows of a table stand.
#[tactic(auto, unfolding(node_model::specs::RowLists::list_key))]
fn list_key(owner: Token, table: u8) -> Key
    ensures { result ≡ list_key owner table }
{
    match table_holder(table) {
        Some(Holder::Link(link)) => Key::Linked(owner, link),
        _ => Key::Owned(owner, table),
    }
}

/// Adds a key, where the table of its row has keys of its kind.
fn add_known(keys: &mut List<Key>, key: Key) -> Result<(), NoMemory>
    ensures { OnOk result (keys.new ≡ keys.old ++ filter has_kind (key ∷ [])) }
{
    if has_kind(&key) {
        return keys.push(key);
    }
    Ok(())
}

/// The lists of these rows in which rows of a table stand.
fn owner_keys(alloc: Global, rows: &[Token], table: u8) -> Result<List<Key>, NoMemory>
    ensures { IfOk result (λ keys. keys ≡ filter has_kind (map (λ owner. list_key owner table) rows.now)) }
{
    let mut keys = List::new(alloc);
    for owner in rows {
        add_known(&mut keys, list_key(*owner, table))?;
    }
    Ok(keys)
}

/// The lists in which the rows of a table stand: that of the image, or those of these rows.
pub(crate) fn list_keys(alloc: Global, rows: &List<Token>, table: u8) -> Result<List<Key>, NoMemory>
    ensures { IfOk result (λ keys. keys ≡ list_keys rows.now table) }
{
    if is_root_table(table) {
        let mut keys = List::new(alloc);
        keys.push(Key::Owned(Token::ROOT, table))?;
        return Ok(keys);
    }
    owner_keys(alloc, rows.as_slice(), table)
}

/// The lists of the types that stand in one of these rows.
fn nested_lists(alloc: Global, rows: &[Token]) -> Result<List<Key>, NoMemory>
    ensures { IfOk result (λ keys. keys ≡ filter has_kind (map (λ t. Linked t Nested) rows.now)) }
{
    let mut keys = List::new(alloc);
    for row in rows {
        add_known(&mut keys, Key::Linked(*row, Link::Nested))?;
    }
    Ok(keys)
}

/// The keys that stand behind the rows of a table: behind those of NestedClass the lists of nested types.
pub(crate) fn nested_keys(
    alloc: Global,
    rows: &List<Token>,
    table: u8,
) -> Result<List<Key>, NoMemory>
    ensures { IfOk result (λ keys. keys ≡ nested_keys rows.now table) }
{
    if table == table::NESTED_CLASS {
        return nested_lists(alloc, rows.as_slice());
    }
    Ok(List::new(alloc))
}
