ghost use Rattle.std.specs.Prelude.{◌≡◌, ◌+◌, ◌*◌, ◌<◌, ◌^◌, ◌++◌, IfOk, OnOk, length};
ghost use Rattle.std.specs.List.{list_any};
ghost use Rattle.md_heaps.specs.LaidHeaps.{blob_entry, is_marked_unit, last_byte, text_entry, unit_bytes, user_entry};

use cil_base::{Bytes, List, NoMemory, write_compressed};
use std::alloc::Global;

/// A text and the zero byte that ends it (ECMA-335 II.24.2.3).
pub(crate) fn text_entry(alloc: Global, text: &[u8]) -> Result<Bytes, NoMemory>
    ensures { IfOk result (λ entry. entry ≡ text_entry text.now) }
{
    let mut entry = List::from_slice(alloc, text)?;
    entry.push(0)?;
    Ok(entry)
}

/// The length of a blob and the blob (ECMA-335 II.24.2.4).
#[tactic(auto, unfolding(crate::specs::LaidHeaps::blob_entry))]
pub(crate) fn blob_entry(alloc: Global, blob: &[u8]) -> Result<Bytes, NoMemory>
    requires { length blob.now < 2 ^ 29 }
    ensures { IfOk result (λ entry. entry ≡ blob_entry blob.now) }
{
    let len = write_compressed(blob.len() as u32);
    let mut entry = List::from_slice(alloc, len.as_slice())?;
    entry.extend(blob)?;
    Ok(entry)
}

/// Whether a unit needs more than an 8-bit character set: a bit of its high byte is set, or its low byte is one of those
/// that the standard lists (ECMA-335 II.24.2.4).
fn is_marked_unit(unit: u16) -> bool
    ensures { result ≡ is_marked_unit unit }
{
    match unit {
        0x01..=0x08 | 0x0E..=0x1F | 0x27 | 0x2D | 0x7F => true,
        _ => unit > 0xFF,
    }
}

/// Whether some unit is marked.
fn has_marked_unit(units: &[u16]) -> bool
    ensures { result ≡ list_any is_marked_unit units.now }
{
    units.iter().any(|unit| is_marked_unit(*unit))
}

/// The byte after the units: 1 where some unit is marked, else 0.
fn last_byte(units: &[u16]) -> u8
    ensures { result ≡ last_byte units.now }
{
    if has_marked_unit(units) { 1 } else { 0 }
}

/// Adds the bytes of the units, the low byte of each first.
fn push_units(bytes: &mut Bytes, units: &[u16]) -> Result<(), NoMemory>
    ensures { OnOk result (bytes.new ≡ bytes.old ++ unit_bytes units.now) }
{
    for unit in units {
        bytes.extend(&unit.to_le_bytes())?;
    }
    Ok(())
}

/// The length of a user string's bytes and its last byte, and these (ECMA-335 II.24.2.4).
#[tactic(auto, unfolding(crate::specs::LaidHeaps::user_entry))]
pub(crate) fn user_entry(alloc: Global, units: &[u16]) -> Result<Bytes, NoMemory>
    requires { 2 * length units.now + 1 < 2 ^ 29 }
    ensures { IfOk result (λ entry. entry ≡ user_entry units.now) }
{
    let len = write_compressed(2 * units.len() as u32 + 1);
    let mut entry = List::from_slice(alloc, len.as_slice())?;
    push_units(&mut entry, units)?;
    entry.push(last_byte(units))?;
    Ok(entry)
}
