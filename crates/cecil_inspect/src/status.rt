ghost use Rattle.std.specs.Prelude.{◌≡◌, ◌++◌, IfOk, OnOk};
ghost use Rattle.cecil_inspect.specs.Statuses.{number_of, status_text, file_text, cause_text, job_line};

use crate::refusal::{add_job_refusal, add_refusal};
use cil_base::{Bytes, List, NoMemory, escape};
use job_text::JobRefusal;
use node_read::OpenRefusal;
use std::alloc::Global;

/// How a run of the program ended.
#[derive(Drop)]
pub enum Status {
    /// All was done.
    Ok,
    /// The words are not those of a command.
    Usage,
    /// The job file is none, for this reason.
    Job(JobRefusal),
    /// The file of this name could not be taken, for a cause that is its own.
    File(Bytes, FileCause),
    /// Reading failed.
    ReadFault,
    /// Writing failed.
    WriteFault,
    /// Memory was wanted and not found.
    NoMemory,
}

/// Why a file could not be taken.
#[derive(Clone, Copy)]
pub enum FileCause {
    /// The folder has no file of this name.
    Missing,
    /// The file has more than 2^26 bytes.
    TooLong,
    /// The file is no image.
    Refused(OpenRefusal),
}

impl Status {
    /// An equal status of its own.
    pub fn copy(&self) -> Result<Status, NoMemory>
        ensures { IfOk result (λ copy. copy ≡ self.now) }
    {
        match self {
            Status::Ok => Ok(Status::Ok),
            Status::Usage => Ok(Status::Usage),
            Status::Job(refusal) => Ok(Status::Job(*refusal)),
            Status::File(name, cause) => Ok(Status::File(name.copy()?, *cause)),
            Status::ReadFault => Ok(Status::ReadFault),
            Status::WriteFault => Ok(Status::WriteFault),
            Status::NoMemory => Ok(Status::NoMemory),
        }
    }

    /// The number that the program ends with.
    pub fn number(&self) -> u8
        ensures { result ≡ number_of self.now }
    {
        match self {
            Status::Ok => 0,
            Status::Usage => 2,
            Status::Job(_) => 3,
            Status::File(_, _) => 4,
            Status::ReadFault => 6,
            Status::WriteFault => 7,
            Status::NoMemory => 8,
        }
    }
}

/// The line that a status has on standard error, without a line feed; empty for Ok.
pub fn status_line(alloc: Global, status: &Status) -> Result<Bytes, NoMemory>
    ensures { IfOk result (λ line. line ≡ status_text status.now) }
{
    match status {
        Status::Ok => Ok(List::new(alloc)),
        Status::Usage => List::from_slice(
            alloc,
            b"cecil: usage: dump FILE | show FILE TOKEN | run JOB | gen N",
        ),
        Status::Job(refusal) => job_line(alloc, *refusal),
        Status::File(name, cause) => file_line(alloc, name.as_slice(), cause),
        Status::ReadFault => List::from_slice(alloc, b"cecil: read fault"),
        Status::WriteFault => List::from_slice(alloc, b"cecil: write fault"),
        Status::NoMemory => List::from_slice(alloc, b"cecil: no memory"),
    }
}

/// The line of a job file that is none.
fn job_line(alloc: Global, refusal: JobRefusal) -> Result<Bytes, NoMemory>
    ensures { IfOk result (λ line. line ≡ job_line refusal) }
{
    let mut line = List::from_slice(alloc, b"cecil: job: ")?;
    add_job_refusal(&mut line, refusal)?;
    Ok(line)
}

/// Adds what is said of a file, after its name.
fn add_cause(text: &mut Bytes, cause: &FileCause) -> Result<(), NoMemory>
    ensures { OnOk result (text.new ≡ text.old ++ cause_text cause.now) }
{
    match cause {
        FileCause::Missing => text.extend(b": missing"),
        FileCause::TooLong => text.extend(b": too long"),
        FileCause::Refused(refusal) => {
            text.extend(b": refused ")?;
            add_refusal(text, *refusal)
        }
    }
}

/// The line of a file that could not be taken.
fn file_line(alloc: Global, name: &[u8], cause: &FileCause) -> Result<Bytes, NoMemory>
    ensures { IfOk result (λ line. line ≡ file_text name.now cause.now) }
{
    if let FileCause::Refused(OpenRefusal::NoMemory) = cause {
        return List::from_slice(alloc, b"cecil: no memory");
    }
    let name = escape(alloc, name)?;
    let mut line = List::from_slice(alloc, b"cecil: file ")?;
    line.extend(name.as_slice())?;
    add_cause(&mut line, cause)?;
    Ok(line)
}
