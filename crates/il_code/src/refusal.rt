use cil_base::NoMemory;

/// Why a body was not written. The refusals are tried in this order.
#[derive(Clone, Copy, PartialEq, Eq)]
pub enum BodyRefusal {
    /// The number of the first short branch whose target is farther than -128 to 127 bytes from the next instruction.
    BranchTooFar(u32),
    /// The bytes of the code where they are more than 2^24 (at most 2^64 - 1 is told), or else the number of handlers
    /// where they are more than 65,535.
    BodyTooLarge(u64),
    /// Memory was wanted and not found. This may come before any other.
    NoMemory,
}

impl From<NoMemory> for BodyRefusal {
    ghost use Rattle.std.specs.Prelude.{◌≡◌};
    ghost use Rattle.il_code.specs.declared.refusal.BodyRefusal.TheVariants as refusal;

    ghost from_gives = { λ _ e. e ≡ refusal.NoMemory };

    fn from(_error: NoMemory) -> BodyRefusal {
        BodyRefusal::NoMemory
    }
}
