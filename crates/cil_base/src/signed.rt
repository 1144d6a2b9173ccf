ghost use Rattle.std.specs.Prelude.{◌≡◌, ◌<◌, ◌≤◌, ◌^◌, ◌-◌, ℤ, pos, neg_ℤ, ◌≤ℤ◌, ◌<ℤ◌, unsigned_abs, length, take, drop, replicate, IfSome, IfNone, Some, None, []};
ghost use Rattle.cil_base.specs.Signed.{strip_signed, spelled_signed};
ghost use Rattle.cil_base.specs.inner.Reading.{bits_of, rotated_at, unrotated};

use crate::compressed::{in_four_bytes, in_one_byte, in_two_bytes};
use crate::{Compressed, read_compressed};

/// The number whose two's complement, rotated left by one, these bits are, in the form of so many bytes.
fn unrotated(rotated: u32, width: usize) -> i32
    requires { rotated < 2 ^ bits_of width }
    ensures { result ≡ unrotated (bits_of width) rotated }
{
    let above: i32 = match width {
        1 => 0x40,
        2 => 0x2000,
        _ => 0x1000_0000,
    };
    let half = (rotated / 2) as i32;
    if rotated % 2 == 0 { half } else { half - above }
}

/// The compressed signed number at the front of the bytes, and how many bytes it has there: 1, 2 or 4, which say from how
/// many bits it is read. `None` where no form of a number begins the bytes (ECMA-335 II.23.2).
pub fn read_signed(bytes: &[u8]) -> Option<(i32, usize)>
    ensures value { IfSome result (λ r. strip_signed r.0 bytes.now ≡ Some (drop r.1 bytes.now)) }
    ensures within { IfSome result (λ r. r.1 ≤ length bytes.now) }
    ensures none { IfNone result ((z : ℤ) → strip_signed z bytes.now ≡ None) }
{
    let (rotated, width) = read_compressed(bytes)?;
    Some((unrotated(rotated, width), width))
}

/// The two's complement of a number, rotated left by one, where the bit of its sign is worth `above`.
fn rotated(value: i32, above: u32) -> u32
    requires held { unsigned_abs value ≤ above }
    requires small { above ≤ 2 ^ 28 }
    ensures { result ≡ rotated_at above value }
{
    if value < 0 {
        (above - value.unsigned_abs()) * 2 + 1
    } else {
        value.unsigned_abs() * 2
    }
}

/// The number in the shortest form that holds it (ECMA-335 II.23.2). The bytes after it are 0.
pub fn write_signed(value: i32) -> Compressed
    requires low { neg_ℤ (pos (2 ^ 28)) ≤ℤ value }
    requires high { value <ℤ pos (2 ^ 28) }
    ensures shortest { take result.len result.bytes ≡ spelled_signed value }
    ensures read_back { strip_signed value (take result.len result.bytes) ≡ Some [] }
    ensures len { result.len ≤ 4 }
    ensures rest { drop result.len result.bytes ≡ replicate (4 - result.len) 0 }
{
    if (-0x40..0x40).contains(&value) {
        in_one_byte(rotated(value, 0x40))
    } else if (-0x2000..0x2000).contains(&value) {
        in_two_bytes(rotated(value, 0x2000))
    } else {
        in_four_bytes(rotated(value, 0x1000_0000))
    }
}
