ghost use Rattle.std.specs.Prelude.{◌≡◌, ◌+◌, ◌*◌, ◌≤◌, IfOk, length};
ghost use Rattle.cil_base.specs.Place.{number_at};
ghost use Rattle.il_code.specs.Code.{user_text, utf16};

use cil_base::{List, NoMemory, number_at, units_at};
use std::alloc::Global;

/// The number of the heap #US among the tables of tokens (ECMA-335 III.1.9).
const USER_STRINGS: u32 = 0x70;

/// The text of a user string's token. None where the token's table is another, or the heap has no entry there.
#[tactic(auto, unfolding(il_code::specs::Code::user_text))]
pub(crate) fn text_at(
    alloc: Global,
    users: &[u8],
    token: u32,
) -> Result<Option<List<u16>>, NoMemory>
    ensures { IfOk result (λ text. text ≡ user_text users.now token) }
{
    if token / 0x100_0000 != USER_STRINGS {
        return Ok(None);
    }
    let Some(bytes) = units_at(users, token % 0x100_0000) else {
        return Ok(None);
    };
    let text = utf16_units(alloc, bytes)?;
    Ok(Some(text))
}

/// The units that the bytes have, the lower byte of each first.
#[tactic(auto, unfolding(il_code::specs::Code::utf16))]
fn utf16_units(alloc: Global, bytes: &[u8]) -> Result<List<u16>, NoMemory>
    ensures { IfOk result (λ text. text ≡ utf16 bytes.now) }
{
    let mut text = List::new(alloc);
    for i in 0..bytes.len() / 2 {
        text.push(unit_at(bytes, i))?;
    }
    Ok(text)
}

/// The unit at an index.
fn unit_at(bytes: &[u8], index: usize) -> u16
    requires { 2 * index + 2 ≤ length bytes.now }
    ensures { result ≡ number_at bytes.now (2 * index) 2 }
{
    number_at(bytes, 2 * index, 2) as u16
}
