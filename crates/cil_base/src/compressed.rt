ghost use Rattle.std.specs.Prelude.{◌≡◌, ◌<◌, ◌≤◌, ◌^◌, ◌-◌, ℕ, length, take, drop, replicate, IfSome, IfNone, Some, None, []};
ghost use Rattle.cil_base.specs.Number.{one_byte_form, two_bytes_form, four_bytes_form, strip_number, spelled_number};
ghost use Rattle.cil_base.specs.inner.Written.{IsForm};

/// A compressed number: the first `len` of the bytes.
#[derive(Clone, Copy)]
pub struct Compressed {
    pub bytes: [u8; 4],
    pub len: usize,
}

/// The compressed number at the front of the bytes, and how many bytes it has there: 1, 2 or 4, also where fewer would
/// hold it. `None` where no form of a number begins the bytes (ECMA-335 II.23.2).
pub fn read_compressed(bytes: &[u8]) -> Option<(u32, usize)>
    ensures value { IfSome result (λ r. strip_number r.0 bytes.now ≡ Some (drop r.1 bytes.now)) }
    ensures within { IfSome result (λ r. r.1 ≤ length bytes.now) }
    ensures none { IfNone result ((n : ℕ) → strip_number n bytes.now ≡ None) }
{
    match bytes {
        [a, ..] if *a < 0x80 => Some((u32::from(*a), 1)),
        [a, b, ..] if *a < 0xC0 => Some((u32::from(*a - 0x80) * 0x100 + u32::from(*b), 2)),
        [a, b, c, d, ..] if *a < 0xE0 => {
            let high = u32::from(*a - 0xC0) * 0x100 + u32::from(*b);
            let low = u32::from(*c) * 0x100 + u32::from(*d);
            Some((high * 0x1_0000 + low, 4))
        }
        _ => None,
    }
}

impl Compressed {
    /// The number's bytes.
    pub fn as_slice(&self) -> &[u8]
        requires { self.now.len ≤ 4 }
        ensures { result.now ≡ take self.now.len self.now.bytes }
    {
        &self.bytes[..self.len]
    }
}

/// A number below 2^7 in one byte.
pub(crate) fn in_one_byte(number: u32) -> Compressed
    requires { number < 2 ^ 7 }
    ensures { IsForm one_byte_form number result }
{
    Compressed {
        bytes: [number as u8, 0, 0, 0],
        len: 1,
    }
}

/// A number below 2^14 in two bytes.
pub(crate) fn in_two_bytes(number: u32) -> Compressed
    requires { number < 2 ^ 14 }
    ensures { IsForm two_bytes_form number result }
{
    let [high, low] = (0x8000 + number as u16).to_be_bytes();
    Compressed {
        bytes: [high, low, 0, 0],
        len: 2,
    }
}

/// A number below 2^29 in four bytes.
pub(crate) fn in_four_bytes(number: u32) -> Compressed
    requires { number < 2 ^ 29 }
    ensures { IsForm four_bytes_form number result }
{
    Compressed {
        bytes: (0xC000_0000 + number).to_be_bytes(),
        len: 4,
    }
}

/// The number in its shortest form (ECMA-335 II.23.2). The bytes after it are 0.
pub fn write_compressed(value: u32) -> Compressed
    requires { value < 2 ^ 29 }
    ensures shortest { take result.len result.bytes ≡ spelled_number value }
    ensures read_back { strip_number value (take result.len result.bytes) ≡ Some [] }
    ensures len { result.len ≤ 4 }
    ensures rest { drop result.len result.bytes ≡ replicate (4 - result.len) 0 }
{
    if value < 0x80 {
        in_one_byte(value)
    } else if value < 0x4000 {
        in_two_bytes(value)
    } else {
        in_four_bytes(value)
    }
}
