//! Laws, for the crates above. Each is the contract, or the bound, of a function that does nothing.

ghost use Rattle.cil_outside.specs.Laws.{LastPutCounts};

use crate::gate::OpenGate;
use crate::hold_gate::HoldGate;

/// A further put of an outlet says what the file of its name holds, and changes the content of no other name.
pub fn last_put_counts()
    ensures { LastPutCounts }
{}

/// Threads may share a gate.
pub fn gates_are_shared() {
    is_shared::<OpenGate>();
    is_shared::<HoldGate>();
}

fn is_shared<T: Sync>() {}
