use cil_base::{NoMemory, Token};
use node_model::{Fault, Key};

/// Why a graph is not written. Refusals are tried in this order.
#[derive(Clone, Copy, PartialEq, Eq)]
pub enum WriteRefusal {
    /// The first fault in the order of the walk.
    Reached(Fault),
    /// The image is not marked as IL alone, its entry point or its headers name native code, or a kept method's body is
    /// native (ECMA-335 II.25.3.3.1).
    NotPureIl,
    /// The first row that the walk meets a second time.
    Twice(Token),
    /// The first key in the order of the walk whose value names a token that is not kept, and the first such token.
    Dangling(Key, Token),
    /// The table, and how many rows of it are kept: more than a row number can count, or 65,535 rows of which the last
    /// owner has none, since a column of two bytes cannot say where its run starts (ECMA-335 II.22). Table 0x70 is #US,
    /// with its size in bytes.
    TooMany(u8, u64),
    /// The first method with an IL body whose row says that its code is none, the first field data of another length
    /// than its type has, or the first resource that stands elsewhere than its row says.
    Unfit(Token),
    /// The first method with a short branch that does not reach its target, and the number of that instruction.
    BranchTooFar(Token, u64),
    /// The first method whose body is too large, and its size or count.
    BodyTooLarge(Token, u64),
    /// The size of the image, which passes 2^26 bytes.
    TooLarge(u64),
    /// Memory was wanted and not found.
    NoMemory,
}

impl From<NoMemory> for WriteRefusal {
    ghost use Rattle.std.specs.Prelude.{◌≡◌};
    ghost use Rattle.write_plan.specs.declared.refusal.WriteRefusal.TheVariants as refusals;

    ghost from_gives = { λ _ e. e ≡ refusals.NoMemory };

    fn from(_error: NoMemory) -> WriteRefusal {
        WriteRefusal::NoMemory
    }
}
