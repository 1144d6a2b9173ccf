/// What follows an instruction's code (ECMA-335 III.1.9 and VI.C.2).
#[derive(Clone, Copy, PartialEq, Eq)]
pub enum OperandKind {
    /// Nothing.
    NoOperand,
    /// An unsigned byte: the number of a local or an argument, or a prefix's flags.
    U8,
    /// The number of a local or an argument, in two bytes.
    U16,
    I8,
    I32,
    I64,
    /// A float of four bytes, kept as its bits.
    R4,
    /// A float of eight bytes, kept as its bits.
    R8,
    /// A metadata token.
    Token,
    /// The token of a user string.
    Text,
    /// A target as a signed byte, counted from the next instruction.
    ShortBranch,
    /// A target as four signed bytes, counted from the next instruction.
    Branch,
    /// A count, and as many targets as in `Branch`.
    Switch,
}
