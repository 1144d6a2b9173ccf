//! Targets of branches as places in the code (ECMA-335 III.1.7.2).

ghost use Rattle.std.specs.Prelude.{◌≡◌, ◌<◌, ◌^◌, length};
ghost use Rattle.il_code.specs.Targets.{target_at, within as code_place};

/// The place in the code at a distance of one signed byte.
#[tactic(auto, unfolding(il_code::specs::Targets::target_at, il_code::specs::Targets::within))]
pub(crate) fn short_target(code: &[u8], after: usize, distance: u8) -> Option<u32>
    requires size { length code.now < 2 ^ 32 }
    requires after { after < 2 ^ 40 }
    ensures { result ≡ target_at code.now (2 ^ 7) after distance }
{
    target(code, 1 << 7, after, distance as usize)
}

/// The place in the code at a distance of four signed bytes.
pub(crate) fn long_target(code: &[u8], after: usize, distance: u32) -> Option<u32>
    requires size { length code.now < 2 ^ 32 }
    requires after { after < 2 ^ 40 }
    ensures { result ≡ target_at code.now (2 ^ 31) after distance }
{
    target(code, 1 << 31, after, distance as usize)
}

/// The place in the code at a distance in two's complement, whose sign counts `half`.
#[tactic(auto, unfolding(il_code::specs::Targets::target_at, il_code::specs::Targets::within))]
fn target(code: &[u8], half: usize, after: usize, distance: usize) -> Option<u32>
    requires size { length code.now < 2 ^ 32 }
    requires after { after < 2 ^ 40 }
    requires half { half < 2 ^ 32 }
    requires distance { distance < 2 ^ 32 }
    ensures { result ≡ target_at code.now half after distance }
{
    if distance < half {
        within(code, after + distance)
    } else if after + distance < 2 * half {
        None
    } else {
        within(code, after + distance - 2 * half)
    }
}

/// The place, where it is one of the code.
#[tactic(auto, unfolding(il_code::specs::Targets::within))]
fn within(code: &[u8], place: usize) -> Option<u32>
    requires { length code.now < 2 ^ 32 }
    ensures { result ≡ code_place code.now place }
{
    if place < code.len() {
        Some(place as u32)
    } else {
        None
    }
}
