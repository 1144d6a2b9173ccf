ghost use Rattle.std.specs.Prelude.{◌≡◌, ◌≢◌, ◌↔◌, [], IfOk, IfSome, List, MatchResult, None, Option};
ghost use Rattle.std.specs.IoError.{error_kind};
ghost use Rattle.cecil.specs.Reads.{IsAll, IsRead};

use cil_base::{List, NoMemory};
use cil_outside::{Folder, Got};
use std::alloc::Global;
use std::fs::{self, OpenFile};
use std::io::{self, ErrorKind, Read};
use std::rt::Files;
use thiserror::Error;

/// The files of the current folder. It tells nothing of what they hold.
#[derive(Drop)]
pub struct CurrentFolder<'a, R: Files> {
    files: &'a R,
    faults: u64,
}

/// Why a read gave no file.
#[derive(Debug, Drop, Error)]
enum ReadError {
    #[error("the file could not be read")]
    Failed(#[from] io::Error),
    #[error("no memory")]
    Memory(#[from] NoMemory),
}

impl<'a, R: Files> CurrentFolder<'a, R> {
    /// The current folder, without a fault so far.
    pub fn new(files: &'a R) -> CurrentFolder<'a, R>
        ensures { result.faults ≡ 0 }
    {
        CurrentFolder { files, faults: 0 }
    }
}

/// No bytes yet, with room for so many.
fn with_room(alloc: Global, room: usize) -> Result<Vec<u8>, NoMemory>
    ensures { IfOk result (λ bytes. bytes.items ≡ []) }
{
    Ok(Vec::with_capacity(alloc, room)?)
}

/// Why bytes were not read. std tells its own want of memory as an error.
fn not_read(error: io::Error) -> ReadError
    ensures { (result ≡ ReadError.Failed error) ↔ (error_kind error ≢ ErrorKind.OutOfMemory) }
{
    if error.kind() == ErrorKind::OutOfMemory {
        ReadError::Memory(NoMemory)
    } else {
        ReadError::Failed(error)
    }
}

/// All bytes that a reader has left, if they are at most `max`, else TooLong. `room` is how many are thought to be there:
/// memory for them is taken at once, and they are read straight into it. There may be more or fewer.
fn read_whole<F: Read + Drop>(
    alloc: Global,
    file: F,
    max: u64,
    room: usize,
) -> Result<Got, ReadError>
    ensures within { IfOk result (λ got. IsRead max got) }
    ensures all { IfOk result (λ got. IfSome (F.remaining file) (λ left. IsAll left max got)) }
{
    let mut bytes = with_room(alloc, room)?;
    let mut front = file.take(max.saturating_add(1));
    match front.read_to_end(&mut bytes) {
        Err(error) => Err(not_read(error)),
        Ok(_) if max < bytes.len() as u64 => Ok(Got::TooLong),
        Ok(_) => Ok(Got::Found(List::from_vec(bytes))),
    }
}

/// What is answered of a file that is not opened: Missing where there is none of its name, else that the read failed.
fn not_opened(error: io::Error) -> Result<Got, ReadError>
    ensures { MatchResult result
        (λ got. (got ≡ Got.Missing) × (error_kind error ≡ ErrorKind.NotFound))
        (λ why. (why ≡ ReadError.Failed error) × (error_kind error ≢ ErrorKind.NotFound)) }
{
    if error.kind() == ErrorKind::NotFound {
        return Ok(Got::Missing);
    }
    Err(ReadError::Failed(error))
}

/// The bytes of a file, Missing or TooLong.
fn read_file<R: Files>(alloc: Global, files: &R, name: &str, max: u64) -> Result<Got, ReadError>
    ensures { IfOk result (λ got. IsRead max got) }
{
    match fs::open(files, name) {
        Ok(file) => {
            // One byte more, so that the end is seen without more room.
            let room = file.metadata()?.len().min(max).saturating_add(1);
            read_whole(alloc, file, max, room as usize)
        }
        Err(error) => not_opened(error),
    }
}

impl<'a, R: Files> Folder for CurrentFolder<'a, R> {
    ghost files = { λ _. None };

    ghost faults = { λ f. f.faults };

    fn read(&mut self, alloc: Global, name: &str, max: u64) -> Result<Got, NoMemory> {
        match read_file(alloc, self.files, name, max) {
            Ok(got) => Ok(got),
            Err(ReadError::Memory(error)) => Err(error),
            Err(ReadError::Failed(_)) => {
                self.faults = self.faults.saturating_add(1);
                Ok(Got::Failed)
            }
        }
    }
}
