use cil_base::NoMemory;

/// The greatest length of an image, and of metadata alone: 2^26 bytes.
pub(crate) const MAX_LENGTH: u64 = 0x0400_0000;

/// Why nothing was written.
#[derive(Clone, Copy, Debug, PartialEq, Eq)]
pub enum PeWriteFail {
    /// There would be so many bytes, more than 2^26.
    TooLarge(u64),
    /// Memory was wanted and not found.
    NoMemory,
}

impl From<NoMemory> for PeWriteFail {
    ghost use Rattle.std.specs.Prelude.{◌≡◌};
    ghost use Rattle.pe_write.specs.declared.fail.PeWriteFail.TheVariants as fails;

    ghost from_gives = { λ _ e. e ≡ fails.NoMemory };

    fn from(_error: NoMemory) -> PeWriteFail {
        PeWriteFail::NoMemory
    }
}
