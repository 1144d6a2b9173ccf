ghost use Rattle.std.specs.Prelude.{◌≡◌, Some, List, Option, ℕ};
ghost use Rattle.cil_outside.specs.SoundFolder.{held_files};

use crate::files::{NamedFile, look_up};
use crate::folder::{Folder, Got};
use cil_base::{List, NoMemory};
use std::alloc::Global;

/// A folder in memory of which no read fails: it tells its files, and its count of faults is always 0.
#[derive(Drop)]
pub struct SoundFolder {
    files: List<NamedFile>,
}

impl SoundFolder {
    /// A folder of these files. Of two files of one name the first counts.
    pub fn new(files: Vec<NamedFile>) -> SoundFolder
        ensures { held_files result ≡ files.items }
    {
        SoundFolder {
            files: List::from_vec(files),
        }
    }
}

impl Folder for SoundFolder {
    ghost files = { λ f. Some (held_files f) };

    ghost faults = { λ _. 0 };

    fn read(&mut self, alloc: Global, name: &str, max: u64) -> Result<Got, NoMemory> {
        look_up(alloc, self.files.as_slice(), name, max)
    }
}
