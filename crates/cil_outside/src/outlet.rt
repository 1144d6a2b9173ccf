ghost use Rattle.std.specs.Prelude.{◌≡◌, ◌≤◌, List, Option, ℕ, OnErr, Ok};
ghost use Rattle.cil_outside.specs.Causes.{Rose};
ghost use Rattle.cil_outside.specs.Outlet.{OutletPuts, OutletSends, put_of};
ghost use Rattle.cil_outside.specs.declared.puts.PutFile.{PutFile};

use cil_base::NoMemory;
use std::alloc::Global;

/// What an outlet answers when it is given bytes.
#[derive(Clone, Copy)]
pub enum Sent {
    /// All bytes were taken.
    Done,
    /// The write failed; the outlet counts it as a fault. Of a text a part of the bytes, from their front, may have
    /// been taken. Of a file it is not told what it then holds.
    Failed,
}

/// A place that text is written to, and that files are put into.
pub trait Outlet {
    /// The text so far, where the outlet tells it.
    ghost written: { Self → Option (List ℕ) };

    /// What was put so far, in order, where the outlet tells it. The last put of a name says what its file holds.
    ghost puts: { Self → Option (List PutFile) };

    /// How many faults the outlet has met. It stands still at 2^64 - 1.
    ghost faults: { Self → ℕ };

    /// Writes `bytes` behind the text so far. `NoMemory` changes nothing.
    fn text(&mut self, alloc: Global, bytes: &[u8]) -> Result<Sent, NoMemory>
        ensures content { OutletSends (written self.old) (written self.new) bytes.now result }
        ensures puts { puts self.new ≡ puts self.old }
        ensures later { faults self.old ≤ faults self.new }
        ensures failed { result ≡ Ok Sent.Failed → Rose (faults self.old) (faults self.new) }
        ensures memory { OnErr result (faults self.new ≡ faults self.old) };

    /// Makes `bytes` the content of the file `name`. `NoMemory` changes nothing.
    fn put(&mut self, alloc: Global, name: &str, bytes: &[u8]) -> Result<Sent, NoMemory>
        ensures content { OutletPuts (puts self.old) (puts self.new) (put_of name.now bytes.now) result }
        ensures text { written self.new ≡ written self.old }
        ensures later { faults self.old ≤ faults self.new }
        ensures failed { result ≡ Ok Sent.Failed → Rose (faults self.old) (faults self.new) }
        ensures memory { OnErr result (faults self.new ≡ faults self.old) };
}
