/// What a command of an actor has come to when a gate is told.
#[derive(Clone, Copy)]
pub enum GatePoint {
    /// It needs a key, and holds no turn.
    Wanted,
    /// It was answered, and holds no turn.
    Answered,
}

/// What actors tell between their turns. A gate may let one wait for another.
pub trait Gate {
    /// The command of this number of the actor has come to the point. Takes no memory, and changes nothing that
    /// contracts see.
    fn at(&self, actor: u32, command: u32, point: GatePoint);
}

/// A gate at which nobody waits.
#[derive(Clone, Copy)]
pub struct OpenGate;

impl Gate for OpenGate {
    fn at(&self, _actor: u32, _command: u32, _point: GatePoint) {}
}
