//! Bytes, bits and GUIDs as texts of hex digits in either case.

ghost use Rattle.std.specs.Prelude.{◌≡◌, IfOk};
ghost use Rattle.job_text.specs.Hex.{eight_digits, guid_of, hex_bytes, sixteen_digits};

use cil_base::{Bytes, List, NoMemory};
use hex::{FromHex, FromHexError};
use std::alloc::Global;
use uuid::Uuid;

/// The bytes of hex digits, two a byte. None exactly where the text is not an even number of hex digits.
#[tactic(auto, unfolding(crate::specs::Hex::hex_bytes))]
pub(crate) fn hex_bytes(alloc: Global, text: &[u8]) -> Result<Option<Bytes>, NoMemory>
    ensures { IfOk result (λ bytes. bytes ≡ hex_bytes text.now) }
{
    match hex::decode(alloc, text) {
        Ok(bytes) => Ok(Some(List::from_vec(bytes))),
        Err(FromHexError::OutOfMemory) => Err(NoMemory),
        Err(FromHexError::InvalidHexCharacter { .. }) => Ok(None),
        Err(FromHexError::OddLength) => Ok(None),
        Err(FromHexError::InvalidStringLength) => Ok(None),
    }
}

/// The number of eight hex digits, most significant first. None exactly where the text is none.
#[tactic(auto, unfolding(crate::specs::Hex::eight_digits))]
pub(crate) fn eight_digits(text: &[u8]) -> Option<u32>
    ensures { result ≡ eight_digits text.now }
{
    match <[u8; 4] as FromHex>::from_hex(text) {
        Ok(bytes) => Some(u32::from_be_bytes(bytes)),
        Err(_) => None,
    }
}

/// The number of sixteen hex digits, most significant first. None exactly where the text is none.
#[tactic(auto, unfolding(crate::specs::Hex::sixteen_digits))]
pub(crate) fn sixteen_digits(text: &[u8]) -> Option<u64>
    ensures { result ≡ sixteen_digits text.now }
{
    match <[u8; 8] as FromHex>::from_hex(text) {
        Ok(bytes) => Some(u64::from_be_bytes(bytes)),
        Err(_) => None,
    }
}

/// The GUID of 8-4-4-4-12 hex digits, as it is stored (ECMA-335 II.24.2.5). None exactly where the text is none.
#[tactic(auto, unfolding(crate::specs::Hex::guid_of))]
pub(crate) fn guid_of(text: &str) -> Option<[u8; 16]>
    ensures { result ≡ guid_of text.now }
{
    if text.len() != 36 {
        return None;
    }
    match Uuid::parse_str(text) {
        Ok(id) => Some(id.to_bytes_le()),
        Err(_) => None,
    }
}
