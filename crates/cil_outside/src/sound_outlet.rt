ghost use Rattle.std.specs.Prelude.{◌≡◌, [], Some, List, Option, ℕ, option_copied};
ghost use Rattle.cil_outside.specs.Outlet.{put_content};
ghost use Rattle.cil_outside.specs.SoundOutlet.{held_puts, held_text};
ghost use Rattle.cil_outside.specs.declared.puts.PutFile.{PutFile};

use crate::outlet::{Outlet, Sent};
use crate::puts::{PutFile, add_file, last_content};
use cil_base::{Bytes, List, NoMemory};
use std::alloc::Global;

/// An outlet in memory of which no write fails: it tells its text and its files, and its count of faults is always 0.
#[derive(Drop)]
pub struct SoundOutlet {
    text: Bytes,
    puts: List<PutFile>,
}

impl SoundOutlet {
    /// An outlet without text and files.
    pub fn new(alloc: Global) -> SoundOutlet
        ensures text { held_text result ≡ [] }
        ensures puts { held_puts result ≡ [] }
    {
        SoundOutlet {
            text: List::new(alloc),
            puts: List::new(alloc),
        }
    }

    /// The text so far.
    pub fn written(&self) -> &[u8]
        ensures { result.now ≡ held_text self.now }
    {
        self.text.as_slice()
    }

    /// The bytes of the file of a name. None exactly where the name has no file.
    pub fn file(&self, name: &str) -> Option<&[u8]>
        ensures { option_copied result ≡ put_content (held_puts self.now) name.now }
    {
        last_content(self.puts.as_slice(), name.as_bytes())
    }
}

impl Outlet for SoundOutlet {
    ghost written = { λ o. Some (held_text o) };

    ghost puts = { λ o. Some (held_puts o) };

    ghost faults = { λ _. 0 };

    fn text(&mut self, _alloc: Global, bytes: &[u8]) -> Result<Sent, NoMemory> {
        self.text.extend(bytes)?;
        Ok(Sent::Done)
    }

    fn put(&mut self, alloc: Global, name: &str, bytes: &[u8]) -> Result<Sent, NoMemory> {
        add_file(alloc, &mut self.puts, name, bytes)?;
        Ok(Sent::Done)
    }
}
