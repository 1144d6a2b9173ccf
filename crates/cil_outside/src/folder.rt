ghost use Rattle.std.specs.Prelude.{◌≡◌, ◌≤◌, List, Option, ℕ, IfOk, Ok, length};
ghost use Rattle.cil_outside.specs.Causes.{Rose};
ghost use Rattle.cil_outside.specs.Folder.{FolderReads, IsWithin};
ghost use Rattle.cil_outside.specs.declared.files.NamedFile.{NamedFile};

use cil_base::{Bytes, NoMemory};
use std::alloc::Global;

/// What a folder answers when a file is read.
#[derive(Drop)]
pub enum Got {
    /// The bytes of the file.
    Found(Bytes),
    /// There is no file of this name.
    Missing,
    /// The file has more bytes than were asked for at most.
    TooLong,
    /// The read failed; the folder counts it as a fault.
    Failed,
}

impl Got {
    /// An equal answer of its own.
    pub fn copy(&self) -> Result<Got, NoMemory>
        ensures { IfOk result (λ copy. copy ≡ self.now) }
    {
        match self {
            Got::Found(bytes) => Ok(Got::Found(bytes.copy()?)),
            Got::Missing => Ok(Got::Missing),
            Got::TooLong => Ok(Got::TooLong),
            Got::Failed => Ok(Got::Failed),
        }
    }
}

/// A folder of files by name.
pub trait Folder {
    /// The files, where the folder tells them.
    ghost files: { Self → Option (List NamedFile) };

    /// How many faults the folder has met. It stands still at 2^64 - 1.
    ghost faults: { Self → ℕ };

    /// Reads the file `name`, if it has at most `max` bytes.
    fn read(&mut self, alloc: Global, name: &str, max: u64) -> Result<Got, NoMemory>
        ensures files { files self.new ≡ files self.old }
        ensures content { IfOk result (λ got. FolderReads (files self.old) name.now max got) }
        ensures within { IfOk result (λ got. IsWithin max got) }
        ensures later { faults self.old ≤ faults self.new }
        ensures failed { result ≡ Ok Got.Failed → Rose (faults self.old) (faults self.new) };
}
