ghost use Rattle.std.specs.Prelude.{◌≡◌, ◌++◌, ◌∷◌, [], IfOk, OnErr, OnOk, None, Some, option_copied};
ghost use Rattle.cil_outside.specs.Outlet.{put_content, put_of, untold};

use cil_base::{Bytes, List, NoMemory};
use std::alloc::Global;

/// A file that was put: its name, and its bytes; none where the put failed, so that they are not told.
#[derive(Drop)]
pub struct PutFile {
    pub name: Bytes,
    pub bytes: Option<Bytes>,
}

impl PutFile {
    /// An equal put of its own.
    pub fn copy(&self) -> Result<PutFile, NoMemory>
        ensures { IfOk result (λ copy. copy ≡ self.now) }
    {
        let name = self.name.copy()?;
        match &self.bytes {
            Some(bytes) => Ok(PutFile {
                name,
                bytes: Some(bytes.copy()?),
            }),
            None => Ok(PutFile { name, bytes: None }),
        }
    }
}

/// Adds a file with these bytes. `NoMemory` changes nothing.
pub fn add_file(
    alloc: Global,
    puts: &mut List<PutFile>,
    name: &str,
    bytes: &[u8],
) -> Result<(), NoMemory>
    ensures ok { OnOk result (puts.new ≡ puts.old ++ put_of name.now bytes.now ∷ []) }
    ensures err { OnErr result (puts.new ≡ puts.old) }
{
    let name = List::from_slice(alloc, name.as_bytes())?;
    let bytes = Some(List::from_slice(alloc, bytes)?);
    puts.push(PutFile { name, bytes })
}

/// Adds a file of which the bytes are not told. `NoMemory` changes nothing.
pub fn add_untold(alloc: Global, puts: &mut List<PutFile>, name: &str) -> Result<(), NoMemory>
    ensures ok { OnOk result (puts.new ≡ puts.old ++ (record { name = name.now; bytes = None }) ∷ []) }
    ensures err { OnErr result (puts.new ≡ puts.old) }
{
    let name = List::from_slice(alloc, name.as_bytes())?;
    puts.push(PutFile { name, bytes: None })
}

/// The bytes of a put, where they are told.
fn told(put: &PutFile) -> Option<&[u8]>
    ensures { option_copied result ≡ put.now.bytes }
{
    match &put.bytes {
        Some(bytes) => Some(bytes.as_slice()),
        None => None,
    }
}

/// The bytes of the file of a name: those of the last put of it.
pub fn last_content<'a>(puts: &'a [PutFile], name: &[u8]) -> Option<&'a [u8]>
    ensures { option_copied result ≡ put_content puts.now name.now }
{
    let mut content = None;
    for put in puts {
        if put.name.as_slice() == name {
            content = told(put);
        }
    }
    content
}
