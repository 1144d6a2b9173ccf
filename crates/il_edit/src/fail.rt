use cil_base::NoMemory;
use il_code::IlRefusal;

/// Why an edit that takes memory was not done.
#[derive(Clone, Copy, PartialEq, Eq)]
pub enum IlFail {
    Refused(IlRefusal),
    /// Memory was wanted and not found. It comes only where nothing is refused.
    NoMemory,
}

impl From<NoMemory> for IlFail {
    ghost use Rattle.std.specs.Prelude.{◌≡◌};
    ghost use Rattle.il_edit.specs.declared.fail.IlFail.TheVariants as fail;

    ghost from_gives = { λ _ e. e ≡ fail.NoMemory };

    fn from(_error: NoMemory) -> IlFail {
        IlFail::NoMemory
    }
}
