ghost use Rattle.std.specs.Prelude.{◌≡◌};
ghost use Rattle.md_heaps.specs.Entries.{guid};

/// What a number says of the #GUID heap.
#[derive(Clone, Copy)]
pub enum GuidAt {
    /// The number is 0: the null GUID.
    Null,
    /// The sixteen bytes of the GUID, as they stand in the heap.
    Is([u8; 16]),
    /// The heap has fewer GUIDs.
    Missing,
}

/// The GUID of a number, counted from 1, in the #GUID heap, which is a row of GUIDs of sixteen bytes. Number 0 is the null
/// GUID. `Missing` where 16 times the number passes the heap (ECMA-335 II.24.2.5).
#[tactic(auto, unfolding(crate::specs::Entries::guid))]
pub fn guid_at(heap: &[u8], index: u32) -> GuidAt
    ensures { result ≡ guid heap.now index }
{
    let Some(before) = index.checked_sub(1) else {
        return GuidAt::Null;
    };
    let Some(rest) = heap.get(before as usize * 16..) else {
        return GuidAt::Missing;
    };
    match rest.first_chunk::<16>() {
        Some(bytes) => GuidAt::Is(*bytes),
        None => GuidAt::Missing,
    }
}
