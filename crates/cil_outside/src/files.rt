ghost use Rattle.std.specs.Prelude.{◌≡◌, ◌≢◌, IfOk, Some, option_copied};
ghost use Rattle.cil_outside.specs.Folder.{content_of, FolderReads, IsWithin};

use crate::folder::Got;
use cil_base::{Bytes, List, NoMemory};
use std::alloc::Global;

/// A file of a folder in memory.
#[derive(Drop)]
pub struct NamedFile {
    pub name: Bytes,
    pub bytes: Bytes,
}

impl NamedFile {
    /// An equal file of its own.
    pub fn copy(&self) -> Result<NamedFile, NoMemory>
        ensures { IfOk result (λ copy. copy ≡ self.now) }
    {
        let name = self.name.copy()?;
        let bytes = self.bytes.copy()?;
        Ok(NamedFile { name, bytes })
    }
}

/// The bytes of the first file of this name.
fn content<'a>(files: &'a [NamedFile], name: &[u8]) -> Option<&'a [u8]>
    ensures { option_copied result ≡ content_of files.now name.now }
{
    let file = files.iter().find(|file| file.name.as_slice() == name)?;
    Some(file.bytes.as_slice())
}

/// What a folder of these files answers when no read fails.
pub fn look_up(alloc: Global, files: &[NamedFile], name: &str, max: u64) -> Result<Got, NoMemory>
    ensures content { IfOk result (λ got. FolderReads (Some files.now) name.now max got) }
    ensures within { IfOk result (λ got. IsWithin max got) }
    ensures sound { IfOk result (λ got. got ≢ Got.Failed) }
{
    let Some(bytes) = content(files, name.as_bytes()) else {
        return Ok(Got::Missing);
    };
    if bytes.len() as u64 > max {
        return Ok(Got::TooLong);
    }
    let bytes = List::from_slice(alloc, bytes)?;
    Ok(Got::Found(bytes))
}
