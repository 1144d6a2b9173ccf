//! Headers of the sections behind the code, read from their bytes (ECMA-335 II.25.4.5).

ghost use Rattle.std.specs.Prelude.{◌≡◌, ◌+◌, ◌<◌, ◌≤◌, ◌^◌, IfSome, length};
ghost use Rattle.il_code.specs.Sections.{aligned, data_section_at};

use crate::fields::u32_at;
use il_code::format::{SECT_EH_TABLE, SECT_FAT_FORMAT, SECT_MORE_SECTS};
use il_code::{Section, clause_len};

/// The next multiple of four.
#[tactic(auto, unfolding(il_code::specs::Sections::aligned))]
pub(crate) fn align(place: usize) -> usize
    requires { place < 2 ^ 63 + 2 ^ 40 }
    ensures { result ≡ aligned place }
{
    (place + 3) / 4 * 4
}

/// The section whose header stands at a place.
#[tactic(auto, unfolding(il_code::specs::Sections::data_section_at))]
pub(crate) fn read_section(bytes: &[u8], place: usize) -> Option<Section>
    ensures value { result ≡ data_section_at bytes.now place }
    ensures small { IfSome result (λ section. section.count < 2 ^ 24) }
    ensures within { IfSome result (λ section. place + 4 ≤ length bytes.now) }
{
    let number = u32_at(bytes, place)?;
    let kind = number % 0x100;
    let fat = kind / SECT_FAT_FORMAT % 2 == 1;
    let size = if fat {
        number / 0x100
    } else {
        number / 0x100 % 0x100
    };
    if kind % SECT_FAT_FORMAT == SECT_EH_TABLE {
        Some(Section {
            fat,
            further: kind / SECT_MORE_SECTS == 1,
            count: size / clause_len(fat) as u32,
        })
    } else {
        None
    }
}
