use crate::key::Key;
use crate::slot::Fault;

/// Why what goes from key to key ends early.
#[derive(Clone, Copy)]
pub enum Halt {
    /// The key has no slot.
    Lacks(Key),
    /// A key holds this fault.
    Faulty(Fault),
}
