/// Why an edit of a body is refused. The refusals are tried in this order.
#[derive(Clone, Copy, PartialEq, Eq)]
pub enum IlRefusal {
    /// The place and what it is beyond: the number of instructions or of handlers. A place before which nothing can be
    /// put in is past that number, or the body has 2^32 - 1 of them; a place at which nothing stands is not below it.
    PlaceBeyond(u32, u32),
    /// The number of the first instruction after the edit with a target that is no instruction, or whose operand is not
    /// of its code's kind.
    BadCode(u32),
    /// The number of the first handler after the edit with an end before its start, an end past the instructions, or a
    /// filter that begins at none.
    BadHandler(u32),
}
