//! A core as the state of a lock: it is built on the bytes of its image, and its history is what callers have done.
use crate::lazy::Core;
use cil_base::Bytes;
use node_model::Entry;
use turn_lock::Chronicle;

impl Chronicle for Core {
    ghost use Rattle.lazy_core.specs.History.{entry_caller};

    type Base = Bytes;

    type Entry = Entry;

    ghost base = { λ c. c.bytes };

    ghost entries = { λ c. c.history };

    ghost caller = { entry_caller };

    fn count(&self) -> u64 {
        self.history.len() as u64
    }
}
