//! Contents put into heaps, with the numbers that they have there (ECMA-335 II.24.2.3 to II.24.2.5). Want of memory is
//! answered too for what no heap holds: a text with a zero byte, and a blob or user string of 2^29 bytes or more.

ghost use Rattle.std.specs.Prelude.{◌≡◌, ◌==◌, ◌+◌, ◌/◌, [], ◌∷◌, ℕ, IfOk};
ghost use Rattle.std.specs.List.{list_any};
ghost use Rattle.std.specs.Option.{option_copied};
ghost use Rattle.md_heaps.specs.LaidHeaps.{blob_entry, text_entry, user_entry};
ghost use Rattle.md_heaps.specs.Pools.{entry_place};
ghost use Rattle.node_model.specs.RowTexts.{blob_of_cell, text_of_cell};
ghost use Rattle.write_tables.specs.Contents.{AsBlob, AsGuid, AsText, AsUser, guid_contents};
ghost use Rattle.write_tables.specs.UserTokens.{string_token};
ghost use Rattle.write_tables.specs.WrittenRows.{guid_number};
ghost use Rattle.write_tables.specs.inner.Gathered.{Gathers};

use crate::cells::{blob_in, guid_in, text_in};
use cil_base::NoMemory;
use md_heaps::HeapBuilder;
use node_model::Cell;

/// The least length, in bytes, that no prefix of a blob or user string can say.
const NO_LENGTH: usize = 1 << 29;

/// The greatest number of four bytes.
const MAX_NUMBER: u64 = 0xffff_ffff;

/// The token of index 0 in #US (ECMA-335 III.1.9).
const STRING_TOKENS: u64 = 0x7000_0000;

/// A number as one of four bytes. Want of memory is answered where it has none.
pub(crate) fn narrowed(number: u64) -> Result<u32, NoMemory>
    ensures { IfOk result (λ narrow. narrow ≡ number) }
{
    if number > MAX_NUMBER {
        return Err(NoMemory);
    }
    Ok(number as u32)
}

/// Whether some byte is zero.
fn has_zero(bytes: &[u8]) -> bool
    ensures { result ≡ list_any (λ byte. byte == 0) bytes.now }
{
    bytes.iter().any(|byte| *byte == 0)
}

/// Puts the text of a cell in, and the empty one where it has none. Its index in #Strings.
pub(crate) fn put_text(heaps: &mut HeapBuilder, cell: Option<&Cell>) -> Result<u32, NoMemory>
    ensures { let text = text_of_cell (option_copied cell.entry) in
        IfOk result (Gathers ℕ heaps.old heaps.new (AsText text ∷ [])
        (λ later. entry_place later.texts (text_entry text))) }
{
    let text = text_in(cell);
    if has_zero(text) {
        return Err(NoMemory);
    }
    let index = heaps.text(text)?;
    let number = narrowed(index)?;
    Ok(number)
}

/// Puts a blob in. Its index in #Blob.
pub(crate) fn put_bytes(heaps: &mut HeapBuilder, blob: &[u8]) -> Result<u32, NoMemory>
    ensures { IfOk result (Gathers ℕ heaps.old heaps.new (AsBlob blob.now ∷ [])
        (λ later. entry_place later.blobs (blob_entry blob.now))) }
{
    if blob.len() >= NO_LENGTH {
        return Err(NoMemory);
    }
    let index = heaps.blob(blob)?;
    let number = narrowed(index)?;
    Ok(number)
}

/// Puts the blob of a cell in, and the empty one where it has none. Its index in #Blob.
pub(crate) fn put_blob(heaps: &mut HeapBuilder, cell: Option<&Cell>) -> Result<u32, NoMemory>
    ensures { let blob = blob_of_cell (option_copied cell.entry) in
        IfOk result (Gathers ℕ heaps.old heaps.new (AsBlob blob ∷ [])
        (λ later. entry_place later.blobs (blob_entry blob))) }
{
    put_bytes(heaps, blob_in(cell))
}

/// Puts sixteen bytes in. Their number in #GUID.
fn put_sixteen(heaps: &mut HeapBuilder, bytes: [u8; 16]) -> Result<u32, NoMemory>
    ensures { IfOk result (Gathers ℕ heaps.old heaps.new (AsGuid bytes ∷ [])
        (λ later. entry_place later.guids bytes / 16 + 1)) }
{
    let index = heaps.guid(bytes)?;
    let number = narrowed(index)?;
    Ok(number)
}

/// Puts the GUID of a cell in. Its number in #GUID, and 0 where the cell has none.
pub(crate) fn put_guid(heaps: &mut HeapBuilder, cell: Option<&Cell>) -> Result<u32, NoMemory>
    ensures { IfOk result (Gathers ℕ heaps.old heaps.new (guid_contents (option_copied cell.entry))
        (λ later. guid_number later.guids (option_copied cell.entry))) }
{
    match guid_in(cell) {
        Some(bytes) => put_sixteen(heaps, bytes),
        None => Ok(0),
    }
}

/// The number of the token that loads the user string at an index (ECMA-335 III.4.16).
fn token_at(index: u64) -> Result<u32, NoMemory>
    ensures { IfOk result (λ number. number ≡ 0x70000000 + index) }
{
    let Some(number) = index.checked_add(STRING_TOKENS) else {
        return Err(NoMemory);
    };
    let token = narrowed(number)?;
    Ok(token)
}

/// Puts a user string in. The number of the token that loads it (ECMA-335 III.4.16).
pub(crate) fn put_string(heaps: &mut HeapBuilder, units: &[u16]) -> Result<u32, NoMemory>
    ensures { IfOk result (Gathers ℕ heaps.old heaps.new (AsUser units.now ∷ [])
        (λ later. string_token later.users units.now)) }
{
    if units.len() >= NO_LENGTH / 2 {
        return Err(NoMemory);
    }
    let index = heaps.user(units)?;
    let number = token_at(index)?;
    Ok(number)
}
