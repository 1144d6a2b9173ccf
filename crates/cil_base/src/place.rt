ghost use Rattle.std.specs.Prelude.{◌≡◌, ◌<◌, ◌≤◌, ◌+◌, ◌^◌, length, IfSome};
ghost use Rattle.cil_base.specs.Place.{number_at, number_within};

use byteorder::{ByteOrder, LittleEndian};

/// The number in `width` bytes from `place` on, the lowest byte first. Asks that they are there, and that they are 1 to 8.
pub fn number_at(bytes: &[u8], place: usize, width: usize) -> u64
    requires width { (1 ≤ width) × (width ≤ 8) }
    requires room { place + width ≤ length bytes.now }
    ensures value { result ≡ number_at bytes.now place width }
    ensures small { result < 256 ^ width }
{
    LittleEndian::read_uint(&bytes[place..], width)
}

/// The same number. `None` where fewer bytes stand from `place` on.
#[tactic(auto, unfolding(crate::specs::Place::number_within))]
pub fn number_within(bytes: &[u8], place: usize, width: usize) -> Option<u64>
    requires { (1 ≤ width) × (width ≤ 8) }
    ensures value { result ≡ number_within bytes.now place width }
    ensures small { IfSome result (λ number. number < 256 ^ width) }
{
    if bytes.len() < width || bytes.len() - width < place {
        return None;
    }
    Some(number_at(bytes, place, width))
}
