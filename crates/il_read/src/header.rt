//! Headers of bodies, read from their bytes (ECMA-335 II.25.4.2 and II.25.4.3).

ghost use Rattle.std.specs.Prelude.{◌≡◌};
ghost use Rattle.il_code.specs.Sections.{header_at, fat_at, tiny};

use crate::fields::{u8_at, u16_at, u32_at};
use cil_base::Token;
use il_code::Header;
use il_code::format::{
    CODE_SIZE, FAT_FORMAT, FAT_LEN, FAT_WORDS, FLAGS, INIT_LOCALS, LOCALS, MAX_STACK, MORE_SECTS,
    TINY_FORMAT, TINY_STACK, WORDS,
};

/// The header at the front of the bytes.
#[tactic(auto, unfolding(il_code::specs::Sections::header_at))]
pub(crate) fn read_header(bytes: &[u8]) -> Option<Header>
    ensures { result ≡ header_at bytes.now }
{
    let first = u8_at(bytes, 0)?;
    if first % 4 == TINY_FORMAT {
        Some(read_tiny(first))
    } else if first % 4 == FAT_FORMAT {
        read_fat(bytes)
    } else {
        None
    }
}

/// The header of one byte.
#[tactic(auto, unfolding(il_code::specs::Sections::tiny))]
fn read_tiny(first: u8) -> Header
    ensures { result ≡ tiny first }
{
    Header {
        start: 1,
        size: (first / 4) as u32,
        max_stack: TINY_STACK,
        init_locals: false,
        locals: Token::ROOT,
        sections: false,
    }
}

/// The header of twelve bytes.
#[tactic(auto, unfolding(il_code::specs::Sections::fat_at))]
fn read_fat(bytes: &[u8]) -> Option<Header>
    ensures { result ≡ fat_at bytes.now }
{
    let flags = u16_at(bytes, FLAGS)?;
    let max_stack = u16_at(bytes, MAX_STACK)?;
    let size = u32_at(bytes, CODE_SIZE)?;
    let locals = u32_at(bytes, LOCALS)?;
    if flags / WORDS == FAT_WORDS {
        Some(Header {
            start: FAT_LEN,
            size,
            max_stack,
            init_locals: flags / INIT_LOCALS % 2 == 1,
            locals: Token::from_number(locals),
            sections: flags / MORE_SECTS % 2 == 1,
        })
    } else {
        None
    }
}
