ghost use Rattle.std.specs.Prelude.{◌≡◌, ◌++◌, OnOk};
ghost use Rattle.dump_text.specs.Faults.{fault_kind_text, fault_text, placed_fault};

use crate::key::add_key;
use crate::pieces::add_decimal;
use cil_base::{Bytes, NoMemory};
use node_model::{Fault, FaultKind};

/// The name of a kind of fault.
fn kind_text(kind: FaultKind) -> &'static [u8]
    ensures { result.now ≡ fault_kind_text kind }
{
    match kind {
        FaultKind::BadRow => b"BadRow",
        FaultKind::BadRange => b"BadRange",
        FaultKind::BadSignature => b"BadSignature",
        FaultKind::BadBody => b"BadBody",
        FaultKind::BadData => b"BadData",
        FaultKind::BadResource => b"BadResource",
    }
}

/// Adds the key of a fault, its kind and the number of the column.
pub(crate) fn add_placed_fault(text: &mut Bytes, fault: &Fault) -> Result<(), NoMemory>
    ensures { OnOk result (text.new ≡ text.old ++ placed_fault fault.now) }
{
    add_key(text, &fault.key)?;
    text.push(b' ')?;
    text.extend(kind_text(fault.kind))?;
    text.push(b' ')?;
    add_decimal(text, u64::from(fault.column))
}

/// Adds a fault: a word, its key, its kind and the number of the column.
pub(crate) fn add_fault(text: &mut Bytes, fault: &Fault) -> Result<(), NoMemory>
    ensures { OnOk result (text.new ≡ text.old ++ fault_text fault.now) }
{
    text.extend(b"fault ")?;
    add_placed_fault(text, fault)
}
