ghost use Rattle.std.specs.Prelude.{◌≡◌, ◌+◌, ◌≤◌, ◌==◌, length};
ghost use Rattle.std.specs.List.{position_or_len};
ghost use Rattle.pe_image.specs.Places.{u16_at, u32_at, u64_at};

use byteorder::{ByteOrder, LittleEndian};

/// The number in the two bytes from `place`.
#[tactic(auto, unfolding(crate::specs::Places::u16_at))]
pub(crate) fn u16_at(bytes: &[u8], place: usize) -> u16
    requires { place + 2 ≤ length bytes.now }
    ensures { result ≡ u16_at bytes.now place }
{
    LittleEndian::read_u16(&bytes[place..])
}

/// The number in the four bytes from `place`.
#[tactic(auto, unfolding(crate::specs::Places::u32_at))]
pub(crate) fn u32_at(bytes: &[u8], place: usize) -> u32
    requires { place + 4 ≤ length bytes.now }
    ensures { result ≡ u32_at bytes.now place }
{
    LittleEndian::read_u32(&bytes[place..])
}

/// The number in the eight bytes from `place`.
#[tactic(auto, unfolding(crate::specs::Places::u64_at))]
pub(crate) fn u64_at(bytes: &[u8], place: usize) -> u64
    requires { place + 8 ≤ length bytes.now }
    ensures { result ≡ u64_at bytes.now place }
{
    LittleEndian::read_u64(&bytes[place..])
}

/// The place of the first zero byte, the length where there is none.
pub(crate) fn zero_place(bytes: &[u8]) -> usize
    ensures value { result ≡ position_or_len (λ c. c == 0) bytes.now }
    ensures within { result ≤ length bytes.now }
{
    bytes
        .iter()
        .position(|byte| *byte == 0)
        .unwrap_or(bytes.len())
}
