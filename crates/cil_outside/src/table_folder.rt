ghost use Rattle.std.specs.Prelude.{◌≡◌, ◌≤◌, IfOk, Ok, Some, List, Option, ℕ};
ghost use Rattle.cil_outside.specs.Causes.{Rose};
ghost use Rattle.cil_outside.specs.Folder.{FolderReads, IsWithin};
ghost use Rattle.cil_outside.specs.TableFolder.{fresh_folder, folder_files, folder_faults, FolderCounts};

use crate::files::{NamedFile, look_up};
use crate::folder::{Folder, Got};
use cil_base::{List, NoMemory};
use std::alloc::Global;

/// A folder in memory, which tells its files. Its calls are numbered from 0, and those of given numbers fail.
#[derive(Drop)]
pub struct TableFolder {
    files: List<NamedFile>,
    failing: List<u64>,
    calls: u64,
    faults: u64,
}

impl TableFolder {
    /// A folder of these files, whose calls with the numbers `failing` fail. Of two files of one name the first counts.
    pub fn new(files: Vec<NamedFile>, failing: Vec<u64>) -> TableFolder
        ensures { result ≡ fresh_folder files.items failing.items }
    {
        TableFolder {
            files: List::from_vec(files),
            failing: List::from_vec(failing),
            calls: 0,
            faults: 0,
        }
    }
}

impl Folder for TableFolder {
    ghost files = { λ f. Some (folder_files f) };

    ghost faults = { folder_faults };

    fn read(&mut self, alloc: Global, name: &str, max: u64) -> Result<Got, NoMemory>
        ensures files { folder_files self.new ≡ folder_files self.old }
        ensures content { IfOk result (λ got. FolderReads (Some (folder_files self.old)) name.now max got) }
        ensures within { IfOk result (λ got. IsWithin max got) }
        ensures later { folder_faults self.old ≤ folder_faults self.new }
        ensures failed { result ≡ Ok Got.Failed → Rose (folder_faults self.old) (folder_faults self.new) }
        ensures exact { FolderCounts self.old self.new result }
    {
        let fails = self.failing.as_slice().contains(&self.calls);
        self.calls = self.calls.saturating_add(1);
        if fails {
            self.faults = self.faults.saturating_add(1);
            return Ok(Got::Failed);
        }
        look_up(alloc, self.files.as_slice(), name, max)
    }
}
