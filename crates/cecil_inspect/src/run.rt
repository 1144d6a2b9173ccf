ghost use Rattle.std.specs.Prelude.{◌≡◌, ◌≤◌, ◌⊎◌, ◌↔◌, Err, IfErr, IfOk, IfSome, None, map, string_bytes};
ghost use Rattle.cil_outside.specs.Causes.{Rose};
ghost use Rattle.cecil_inspect.specs.Inspect.{Answers, Completes, TellsFaults, Writes};
ghost use Rattle.cecil_inspect.specs.Steps.{Ends, IsLines, IsRefused, Sends};
ghost use Rattle.cecil_inspect.specs.Words.{asked};

use crate::make::file_lines;
use crate::status::{FileCause, Status};
use crate::words::{Request, asked};
use cil_base::{Bytes, List, NoMemory};
use cil_outside::{Folder, Got, Outlet, Sent};
use node_read::{OpenRefusal, image_is_not_refused};
use std::alloc::Global;

/// The greatest length of an image that is read, in bytes.
pub const MAX_IMAGE_LENGTH: u64 = 0x0400_0000;

/// The status of a file that could not be taken.
pub fn file_status(alloc: Global, name: &str, cause: FileCause) -> Status
    ensures { (result ≡ Status.File name.now cause) ⊎ (result ≡ Status.NoMemory) }
{
    match List::from_slice(alloc, name.as_bytes()) {
        Ok(name) => Status::File(name, cause),
        Err(NoMemory) => Status::NoMemory,
    }
}

/// The status of a file that is not opened.
pub fn refused_status(alloc: Global, name: &str, cause: OpenRefusal) -> Status
    ensures { IsRefused cause name.now result }
{
    match cause {
        OpenRefusal::NoMemory => Status::NoMemory,
        _ => file_status(alloc, name, FileCause::Refused(cause)),
    }
}

/// The lines that are asked of the file of a name, or the status that reading it ends with.
fn prepare<F: Folder>(
    alloc: Global,
    folder: &mut F,
    name: &str,
    request: Request,
) -> Result<Bytes, Status>
    ensures text { IfOk result (λ text. IsLines (F.files folder.old) name.now request text) }
    ensures status { IfErr result (λ status. Ends (F.files folder.old) name.now status) }
    ensures read { result ≡ Err Status.ReadFault → Rose (F.faults folder.old) (F.faults folder.new) }
    ensures files { F.files folder.new ≡ F.files folder.old }
    ensures later { F.faults folder.old ≤ F.faults folder.new }
{
    let bytes = match folder.read(alloc, name, MAX_IMAGE_LENGTH) {
        Ok(Got::Found(bytes)) => bytes,
        Ok(Got::Missing) => return Err(file_status(alloc, name, FileCause::Missing)),
        Ok(Got::TooLong) => return Err(file_status(alloc, name, FileCause::TooLong)),
        Ok(Got::Failed) => return Err(Status::ReadFault),
        Err(NoMemory) => return Err(Status::NoMemory),
    };
    match file_lines(alloc, bytes.into_vec(), request) {
        Ok(text) => Ok(text),
        Err(cause) => Err(refused_status(alloc, name, cause)),
    }
}

/// Writes a text, and tells how that ended.
pub fn send<O: Outlet>(alloc: Global, out: &mut O, text: &[u8]) -> Status
    ensures text { Sends (O.written out.old) (O.written out.new) text.now result }
    ensures write { result ≡ Status.WriteFault → Rose (O.faults out.old) (O.faults out.new) }
    ensures later { O.faults out.old ≤ O.faults out.new }
    ensures puts { O.puts out.new ≡ O.puts out.old }
{
    match out.text(alloc, text) {
        Ok(Sent::Done) => Status::Ok,
        Ok(Sent::Failed) => Status::WriteFault,
        Err(NoMemory) => Status::NoMemory,
    }
}

/// Does what the words say, over this folder and this outlet: `dump FILE` writes the reply to Row of the first Module
/// row and of each TypeDef row that the image lists, and `show FILE TOKEN` the reply to Row of the token and, unless it
/// is absent, those of each further part that its table has; one line each.
pub fn inspect<F: Folder, O: Outlet>(
    alloc: Global,
    words: &[String],
    folder: &mut F,
    out: &mut O,
) -> Status
    // exactly where the words are not in the grammar
    ensures usage { result ≡ Status.Usage ↔ asked (map string_bytes words.now) ≡ None }
    // the status that the named file calls for, exactly, but for faults and want of memory
    ensures file { IfSome (asked (map string_bytes words.now)) (λ a. Answers (F.files folder.old) a.0 result) }
    // Ok adds the lines that are asked of the named file, which is an image; another status nothing, but for what a
    // failed write left
    ensures text { Writes (F.files folder.old) (asked (map string_bytes words.now))
        (O.written out.old) (O.written out.new) result }
    ensures faults { TellsFaults (F.faults folder.old) (F.faults folder.new) (O.faults out.old) (O.faults out.new)
        result }
    // where no count of faults rose, a file that calls for Ok gets it, but for want of memory
    ensures complete { (Rose (F.faults folder.old) (F.faults folder.new) → ⊥)
        → (Rose (O.faults out.old) (O.faults out.new) → ⊥)
        → Completes (F.files folder.old) (asked (map string_bytes words.now)) result }
    // the folder's files stay, and no file is put
    ensures stay { (F.files folder.new ≡ F.files folder.old) × (O.puts out.new ≡ O.puts out.old) }
{
    // for its law: an image has no refusal
    image_is_not_refused();
    let Some((name, request)) = asked(words) else {
        return Status::Usage;
    };
    match prepare(alloc, folder, name, request) {
        Ok(text) => send(alloc, out, text.as_slice()),
        Err(status) => status,
    }
}
