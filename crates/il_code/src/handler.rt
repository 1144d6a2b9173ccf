use cil_base::Token;

/// What a handler is for (ECMA-335 II.25.4.6).
#[derive(Clone, Copy, PartialEq, Eq)]
pub enum HandlerKind {
    /// Exceptions of a type.
    Typed(Token),
    /// What a filter takes, which begins at that instruction.
    Filter(u32),
    Finally,
    Fault,
}

/// A protected range of instructions and its handler, by the numbers of instructions. An end is the first instruction
/// past the range, or the number of instructions.
#[derive(Clone, Copy, PartialEq, Eq)]
pub struct Handler {
    pub kind: HandlerKind,
    pub try_start: u32,
    pub try_end: u32,
    pub start: u32,
    pub end: u32,
}
