use crate::walk::Halt;
use cil_base::NoMemory;

/// Why a call that looks at keys ends early.
#[derive(Clone, Copy)]
pub enum Stop {
    /// A key that it looks at has no slot, or holds a fault.
    Halted(Halt),
    /// Memory was wanted and not found.
    NoMemory,
}

impl From<NoMemory> for Stop {
    ghost use Rattle.std.specs.Prelude.{◌≡◌};
    ghost use Rattle.node_model.specs.declared.stop.Stop.TheVariants as stops;

    ghost from_gives = { λ _ e. e ≡ stops.NoMemory };

    fn from(_error: NoMemory) -> Stop {
        Stop::NoMemory
    }
}

impl From<Halt> for Stop {
    ghost use Rattle.std.specs.Prelude.{◌≡◌};
    ghost use Rattle.node_model.specs.declared.stop.Stop.TheVariants as stops;

    ghost from_gives = { λ halt e. e ≡ stops.Halted halt };

    fn from(halt: Halt) -> Stop {
        Stop::Halted(halt)
    }
}
