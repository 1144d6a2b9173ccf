//! The full names of assemblies and of references to them (ECMA-335 II.6.2.1.3, II.22.2, II.22.5).

ghost use Rattle.std.specs.Prelude.{◌≡◌, codes, IfOk};
ghost use Rattle.node_model.specs.RowTexts.{assembly_key_token, assembly_version, blob_named, full_assembly_name};
ghost use Rattle.node_model.specs.RowTexts.{number_named, own_key_token, reference_key_token, word_named};

use crate::row_texts::{blob_named, number_named, text_named};
use asm_names::{assembly_text, public_key_token};
use cil_base::{Bytes, List, NoMemory};
use md_schema::table;
use node_model::RowValue;
use std::alloc::Global;

/// The number of two bytes in a column.
fn word_named(row: &RowValue, name: &[u8]) -> u16
    ensures { result ≡ word_named name.now row.now }
{
    (number_named(row, name) % 0x1_0000) as u16
}

/// The four numbers of an assembly's version.
#[tactic(auto, unfolding(node_model::specs::RowTexts::assembly_version))]
fn assembly_version(row: &RowValue) -> [u16; 4]
    ensures { result ≡ assembly_version row.now }
{
    [
        word_named(row, b"Major"),
        word_named(row, b"Minor"),
        word_named(row, b"Build"),
        word_named(row, b"Revision"),
    ]
}

/// The token of an assembly's public key; of an empty key there is none.
fn own_key_token(alloc: Global, key: &[u8]) -> Result<Bytes, NoMemory>
    ensures { IfOk result (λ token. token ≡ own_key_token key.now) }
{
    match key {
        [] => Ok(List::new(alloc)),
        _ => List::from_slice(alloc, &public_key_token(key)),
    }
}

/// The token of these bytes of a reference to an assembly: that of the key, where the lowest bit of its flags is set.
fn token_of_bytes(alloc: Global, flags: u64, bytes: &[u8]) -> Result<Bytes, NoMemory>
    ensures { IfOk result (λ token. token ≡ reference_key_token flags bytes.now) }
{
    if flags % 2 == 1 {
        List::from_slice(alloc, &public_key_token(bytes))
    } else {
        List::from_slice(alloc, bytes)
    }
}

/// The token that a reference to an assembly has.
fn reference_token(alloc: Global, row: &RowValue) -> Result<Bytes, NoMemory>
    ensures { IfOk result (λ token. token
        ≡ reference_key_token (number_named (codes "Flags") row.now) (blob_named (codes "PublicKeyOrToken") row.now)) }
{
    let flags = number_named(row, b"Flags");
    token_of_bytes(alloc, flags, blob_named(row, b"PublicKeyOrToken"))
}

/// The token of the public key of an assembly, or of a reference to one.
#[tactic(auto, unfolding(node_model::specs::RowTexts::assembly_key_token))]
fn assembly_key_token(alloc: Global, row: &RowValue) -> Result<Bytes, NoMemory>
    ensures { IfOk result (λ token. token ≡ assembly_key_token row.now) }
{
    if row.token.table == table::ASSEMBLY {
        own_key_token(alloc, blob_named(row, b"PublicKey"))
    } else {
        reference_token(alloc, row)
    }
}

/// The full name of an assembly, or of a reference to one.
#[tactic(auto, unfolding(node_model::specs::RowTexts::full_assembly_name))]
pub(crate) fn full_assembly_name(alloc: Global, row: &RowValue) -> Result<Bytes, NoMemory>
    ensures { IfOk result (λ name. name ≡ full_assembly_name row.now) }
{
    let token = assembly_key_token(alloc, row)?;
    let name = text_named(row, b"Name");
    let culture = text_named(row, b"Culture");
    assembly_text(
        alloc,
        name,
        assembly_version(row),
        culture,
        token.as_slice(),
    )
}
