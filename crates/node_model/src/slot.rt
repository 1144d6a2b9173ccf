ghost use Rattle.std.specs.Prelude.{◌≡◌, IfOk};

use crate::key::Key;
use crate::value::Value;
use cil_base::NoMemory;
use std::alloc::Global;

/// What is wrong with a key.
#[derive(Clone, Copy, PartialEq, Eq)]
pub enum FaultKind {
    /// A cell names an entry of a heap or a row that does not exist.
    BadRow,
    /// The start of a row's run and the start of the next are no run of rows.
    BadRange,
    /// The blob does not exist, is no signature, or one of a sort that the table does not have.
    BadSignature,
    /// The bytes at the RVA spell no body.
    BadBody,
    /// The field's type has no size, or there are fewer bytes at the RVA.
    BadData,
    /// The implementation names no row, or the length or the bytes are not there.
    BadResource,
}

/// A fault of a key. `column` is the number of the column that has it, from 0, where the kind is BadRow or BadRange,
/// and else 0.
#[derive(Clone, Copy, PartialEq, Eq)]
pub struct Fault {
    pub key: Key,
    pub kind: FaultKind,
    pub column: u8,
}

/// What a key holds: its value, or its one fault.
#[derive(Drop)]
pub enum Slot {
    Value(Value),
    Fault(Fault),
}

impl Slot {
    /// An equal slot of its own.
    pub fn copy(&self, alloc: Global) -> Result<Slot, NoMemory>
        ensures { IfOk result (λ copy. copy ≡ self.now) }
    {
        match self {
            Slot::Value(value) => Ok(Slot::Value(value.copy(alloc)?)),
            Slot::Fault(fault) => Ok(Slot::Fault(*fault)),
        }
    }
}
