//! Fields of one, two, four and eight bytes, the lowest byte first. None where the bytes end before.

ghost use Rattle.std.specs.Prelude.{◌≡◌};
ghost use Rattle.cil_base.specs.Place.{number_within};

use cil_base::number_within;

/// The number in the byte at a place.
pub(crate) fn u8_at(bytes: &[u8], place: usize) -> Option<u8>
    ensures { result ≡ number_within bytes.now place 1 }
{
    let number = number_within(bytes, place, 1)?;
    Some(number as u8)
}

/// The number in the two bytes at a place.
pub(crate) fn u16_at(bytes: &[u8], place: usize) -> Option<u16>
    ensures { result ≡ number_within bytes.now place 2 }
{
    let number = number_within(bytes, place, 2)?;
    Some(number as u16)
}

/// The number in the four bytes at a place.
pub(crate) fn u32_at(bytes: &[u8], place: usize) -> Option<u32>
    ensures { result ≡ number_within bytes.now place 4 }
{
    let number = number_within(bytes, place, 4)?;
    Some(number as u32)
}

/// The number in the eight bytes at a place.
pub(crate) fn u64_at(bytes: &[u8], place: usize) -> Option<u64>
    ensures { result ≡ number_within bytes.now place 8 }
{
    let number = number_within(bytes, place, 8)?;
    Some(number)
}
