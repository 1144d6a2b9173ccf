ghost use Rattle.std.specs.Prelude.{◌≡◌, ◌<◌, IfOk, IfSome, length, map};
ghost use Rattle.std.specs.List.{position, range_with_len};
ghost use Rattle.node_model.specs.Keys.{same_key};
ghost use Rattle.node_model.specs.Places.{image_shape, key_of_kind, key_place, number_of_kinds, row_keys};

use crate::key::Key;
use crate::kinds::{KeyKind, key_of_kind, root_kinds, row_kinds};
use cil_base::{List, NoMemory, Token};
use slot_store::{HasPlace, Place, Shape};
use std::alloc::Global;

/// The table in which the root's keys have their places, as those of its row 1. It is no table of the schema.
const ROOT_PLACES: u8 = 63;

/// The keys of a row: one of each kind that its table has, in the order of the kinds (ECMA-335 II.22).
pub fn row_keys(alloc: Global, token: Token) -> Result<List<Key>, NoMemory>
    ensures { IfOk result (λ keys. keys ≡ row_keys token) }
{
    let kinds = row_kinds(token.table);
    let mut keys = List::new(alloc);
    for kind in kinds {
        keys.push(key_of_kind(token, *kind))?;
    }
    Ok(keys)
}

/// How many kinds of keys a row of the table has.
fn number_of_kinds(table: u8) -> u8
    ensures { result ≡ number_of_kinds table }
{
    if table == ROOT_PLACES {
        root_kinds().len() as u8
    } else {
        row_kinds(table).len() as u8
    }
}

/// The same of each table, by its number.
fn numbers_of_kinds() -> [u8; 64]
    ensures { result ≡ map number_of_kinds (range_with_len 0 64) }
{
    let mut numbers = [0; 64];
    for table in 0..64 {
        numbers[table] = number_of_kinds(table as u8);
    }
    numbers
}

/// The shape of a store for an image with so many rows: a place for each of its keys.
#[tactic(auto, unfolding(crate::specs::Places::image_shape))]
pub fn image_shape(rows: &[u32; 64]) -> Shape
    ensures { result ≡ image_shape rows.now }
{
    let mut rows = *rows;
    rows[ROOT_PLACES as usize] = 1;
    Shape {
        rows,
        kinds: numbers_of_kinds(),
    }
}

/// Whether a key is that of a row, or of the root, of this kind.
#[tactic(auto, using(crate::specs::inner::KeyEquality::eq_is_same))]
fn is_of_kind(key: &Key, token: Token, kind: KeyKind) -> bool
    ensures { result ≡ same_key key.now (key_of_kind token kind) }
{
    *key == key_of_kind(token, kind)
}

/// The place of the first of these kinds that is the key's.
fn place_among(key: &Key, token: Token, kinds: &[KeyKind]) -> Option<usize>
    ensures place { result ≡ position (λ kind. same_key key.now (key_of_kind token kind)) kinds.now }
    ensures within { IfSome result (λ place. place < length kinds.now) }
{
    kinds.iter().position(|kind| is_of_kind(key, token, *kind))
}

/// The number of a key among the keys of these kinds that a row, or the root, has.
fn number_among(key: &Key, token: Token, kinds: &[KeyKind]) -> Option<u8>
    requires { length kinds.now < 256 }
    ensures { result ≡ position (same_key key.now) (map (key_of_kind token) kinds.now) }
{
    let place = place_among(key, token, kinds)?;
    Some(place as u8)
}

/// Where a key stands. `None` exactly where it is of a kind that its row does not have.
#[tactic(auto, unfolding(crate::specs::Places::key_place))]
fn key_place(key: &Key) -> Option<Place>
    ensures { result ≡ key_place key.now }
{
    if key.is_of_root() {
        let kind = number_among(key, Token::ROOT, root_kinds())?;
        return Some(Place {
            table: ROOT_PLACES,
            rid: 1,
            kind,
        });
    }
    let token = key.token();
    let kind = number_among(key, token, row_kinds(token.table))?;
    Some(Place {
        table: token.table,
        rid: token.rid,
        kind,
    })
}

impl HasPlace for Key {
    ghost use Rattle.node_model.specs.Places.{key_place};
    ghost use Rattle.node_model.specs.inner.PlaceLaws as laws;

    ghost place_of = { key_place };

    fn place(&self) -> Option<Place> {
        key_place(self)
    }

    ghost one_place = { laws.one_place };

    ghost one_key = { laws.one_key };
}
