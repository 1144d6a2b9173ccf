ghost use Rattle.std.specs.Prelude.{◌≡◌, ◌≤◌};
ghost use Rattle.write_tables.specs.HeapSizes.{heap_sizes_of, large_bit};

use cil_base::Bytes;
use md_heaps::Heaps;

/// The least size of a heap whose indexes have four bytes.
const LARGE: usize = 0x10000;

/// The bit of a heap where it is large, and else 0.
fn large_bit(heap: &Bytes, bit: u8) -> u8
    ensures bit { result ≡ large_bit heap.now bit }
    ensures bound { result ≤ bit }
{
    if heap.len() >= LARGE { bit } else { 0 }
}

/// HeapSizes, which says which heaps have 2^16 bytes or more: 1 #Strings, 2 #GUID, 4 #Blob (ECMA-335 II.24.2.6).
#[tactic(auto, unfolding(crate::specs::HeapSizes::heap_sizes_of))]
pub fn heap_sizes(heaps: &Heaps) -> u8
    ensures { result ≡ heap_sizes_of heaps.now }
{
    large_bit(&heaps.strings, 1) + large_bit(&heaps.guids, 2) + large_bit(&heaps.blobs, 4)
}
