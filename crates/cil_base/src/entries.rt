ghost use Rattle.std.specs.Prelude.{◌≡◌, drop};
ghost use Rattle.std.specs.Option.{option_copied};
ghost use Rattle.cil_base.specs.Heaps.{entry, units};

use crate::read_compressed;

/// The bytes of a heap from an index on: none where the index lies past its end.
pub fn from_index(heap: &[u8], index: u32) -> &[u8]
    ensures { result.now ≡ drop index heap.now }
{
    heap.get(index as usize..).unwrap_or(&[])
}

/// The content of the entry at the front of the bytes: as many bytes as the compressed number before them says. `None`
/// where no number begins the bytes, or fewer bytes follow it (ECMA-335 II.24.2.4).
pub fn entry_at_front(bytes: &[u8]) -> Option<&[u8]>
    ensures { option_copied result ≡ entry bytes.now }
{
    let (len, width) = read_compressed(bytes)?;
    bytes[width..].get(..len as usize)
}

/// The UTF-16 bytes of the entry at an index of the #US heap: as many of its bytes as are whole units. The byte after them
/// is not looked at. `None` where the entry's length, or as many bytes after it, do not stand in the heap (ECMA-335
/// II.24.2.4).
pub fn units_at(heap: &[u8], index: u32) -> Option<&[u8]>
    ensures { option_copied result ≡ units heap.now index }
{
    let content = entry_at_front(from_index(heap, index))?;
    Some(&content[..content.len() / 2 * 2])
}
