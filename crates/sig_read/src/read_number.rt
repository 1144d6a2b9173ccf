ghost use Rattle.std.specs.Prelude.{◌≡◌, IfOk};
ghost use Rattle.cil_base.specs.inner.Reading.{compressed_at, signed_at};
ghost use Rattle.sig_read.specs.inner.Found.{FindsFront, fronted};
ghost use Rattle.sig_tree.specs.Fronts.{counted_at, many_at, type_token_at};

use cil_base::{List, NoMemory, Token, read_compressed, read_signed};
use sig_tree::element_type as el;
use std::alloc::Global;

/// The number at the front of the bytes, and the bytes after it.
#[tactic(auto, using(crate::proofs::Fuel::number_found, crate::proofs::Fuel::number_missing))]
pub(crate) fn read_number(bytes: &[u8]) -> Option<(u32, &[u8])>
    ensures { FindsFront result (compressed_at bytes.now) }
{
    match read_compressed(bytes) {
        Some((number, len)) => Some((number, &bytes[len..])),
        None => None,
    }
}

/// The signed number at the front of the bytes, and the bytes after it.
#[tactic(auto, using(crate::proofs::Fuel::low_found, crate::proofs::Fuel::low_missing))]
fn read_low(bytes: &[u8]) -> Option<(i32, &[u8])>
    ensures { FindsFront result (signed_at bytes.now) }
{
    match read_signed(bytes) {
        Some((low, len)) => Some((low, &bytes[len..])),
        None => None,
    }
}

/// The type token at the front of the bytes, and the bytes after it (ECMA-335 II.23.2.8).
pub(crate) fn read_type_token(bytes: &[u8]) -> Option<(Token, &[u8])>
    ensures { FindsFront result (type_token_at bytes.now) }
{
    let Some((number, rest)) = read_number(bytes) else {
        return None;
    };
    let rid = number / 4;
    if rid >= 0x0100_0000 {
        return None;
    }
    match number % 4 {
        0 => Some((
            Token {
                table: el::TYPE_DEF,
                rid,
            },
            rest,
        )),
        1 => Some((
            Token {
                table: el::TYPE_REF,
                rid,
            },
            rest,
        )),
        2 => Some((
            Token {
                table: el::TYPE_SPEC,
                rid,
            },
            rest,
        )),
        _ => None,
    }
}

/// A count, and as many numbers.
#[tactic(auto, using(crate::proofs::Fuel::fronted_more, crate::proofs::Fuel::fronted_none))]
pub(crate) fn read_numbers(
    alloc: Global,
    bytes: &[u8],
) -> Result<Option<(List<u32>, &[u8])>, NoMemory>
    ensures { IfOk result (λ found. FindsFront found (counted_at compressed_at bytes.now)) }
{
    let Some((count, bytes)) = read_number(bytes) else {
        return Ok(None);
    };
    let mut numbers = List::new(alloc);
    let mut rest = bytes;
    for index in 0..count {
        match read_number(rest) {
            Some((number, after)) => {
                numbers.push(number)?;
                rest = after;
            }
            None => return Ok(None),
        }
    }
    Ok(Some((numbers, rest)))
}

/// A count, and as many signed numbers.
#[tactic(auto, using(crate::proofs::Fuel::fronted_more, crate::proofs::Fuel::fronted_none))]
pub(crate) fn read_lows(alloc: Global, bytes: &[u8]) -> Result<Option<(List<i32>, &[u8])>, NoMemory>
    ensures { IfOk result (λ found. FindsFront found (counted_at signed_at bytes.now)) }
{
    let Some((count, bytes)) = read_number(bytes) else {
        return Ok(None);
    };
    let mut lows = List::new(alloc);
    let mut rest = bytes;
    for index in 0..count {
        match read_low(rest) {
            Some((low, after)) => {
                lows.push(low)?;
                rest = after;
            }
            None => return Ok(None),
        }
    }
    Ok(Some((lows, rest)))
}
