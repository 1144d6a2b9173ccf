use cil_base::Bytes;

/// Why nothing is read.
#[derive(Drop)]
pub(crate) enum Stop {
    /// The width of the enum of this name is needed.
    Lacks(Bytes),
    /// No value stands at the front of the bytes.
    Fails,
}
