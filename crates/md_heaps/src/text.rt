ghost use Rattle.std.specs.Prelude.{◌≡◌, ◌==◌};
ghost use Rattle.std.specs.List.{position};
ghost use Rattle.std.specs.Option.{option_copied};
ghost use Rattle.md_heaps.specs.Entries.{before_zero, text};

use cil_base::from_index;

/// The place of the first zero byte.
fn first_zero(bytes: &[u8]) -> Option<usize>
    ensures { result ≡ position (λ byte. byte == 0) bytes.now }
{
    bytes.iter().position(|byte| *byte == 0)
}

/// The bytes before the first zero byte. `None` where there is no zero byte.
fn before_zero(bytes: &[u8]) -> Option<&[u8]>
    ensures { option_copied result ≡ before_zero bytes.now }
{
    let end = first_zero(bytes)?;
    Some(&bytes[..end])
}

/// The text at an index of the #Strings heap, without the zero byte that ends it. Index 0 is the empty text, whatever the
/// heap holds. `None` where the index is not 0 and no zero byte stands at or after it (ECMA-335 II.24.2.3).
#[tactic(auto, unfolding(crate::specs::Entries::text))]
pub fn string_at(heap: &[u8], index: u32) -> Option<&[u8]>
    ensures { option_copied result ≡ text heap.now index }
{
    if index == 0 {
        return Some(&[]);
    }
    before_zero(from_index(heap, index))
}
