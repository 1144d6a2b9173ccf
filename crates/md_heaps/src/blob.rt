ghost use Rattle.std.specs.Prelude.{◌≡◌};
ghost use Rattle.std.specs.Option.{option_copied};
ghost use Rattle.md_heaps.specs.Entries.{blob};

use cil_base::{entry_at_front, from_index};

/// The blob at an index of the #Blob heap. Index 0 is the empty blob, whatever the heap holds. `None` where the index is
/// not 0 and the blob's length, or as many bytes after it, do not stand in the heap (ECMA-335 II.24.2.4).
#[tactic(auto, unfolding(crate::specs::Entries::blob))]
pub fn blob_at(heap: &[u8], index: u32) -> Option<&[u8]>
    ensures { option_copied result ≡ blob heap.now index }
{
    if index == 0 {
        return Some(&[]);
    }
    entry_at_front(from_index(heap, index))
}
