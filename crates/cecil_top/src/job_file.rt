//! The job file of a run.
ghost use Rattle.std.specs.Prelude.{◌≡◌, ◌≤◌, Err, IfErr, IfOk, length};
ghost use Rattle.cecil_top.specs.ToolFiles.{IsReadFile, IsReadJob};
ghost use Rattle.cecil_top.specs.inner.ToolSteps.{EndsFile, EndsJob};
ghost use Rattle.cil_outside.specs.Causes.{Rose};
ghost use Rattle.job_text.specs.Runnable.{AreRunnable};

use cecil_inspect::{FileCause, Status, file_status};
use cil_base::{Bytes, NoMemory};
use cil_outside::{Folder, Got};
use job_text::{Job, JobFail, job_of};
use std::alloc::Global;

/// The greatest length of a job file that is read, in bytes.
const MAX_JOB_LENGTH: u64 = 0x0100_0000;

/// The bytes of the file of a name, which are at most `max`, or the status that reading it ends with.
pub(crate) fn read_file<F: Folder>(
    alloc: Global,
    folder: &mut F,
    name: &str,
    max: u64,
) -> Result<Bytes, Status>
    ensures bytes { IfOk result (λ b. IsReadFile (F.files folder.old) name.now max b) }
    ensures status { IfErr result (λ status. EndsFile (F.files folder.old) name.now max status) }
    ensures read { result ≡ Err Status.ReadFault → Rose (F.faults folder.old) (F.faults folder.new) }
    ensures files { F.files folder.new ≡ F.files folder.old }
    ensures later { F.faults folder.old ≤ F.faults folder.new }
{
    match folder.read(alloc, name, max) {
        Ok(Got::Found(bytes)) => Ok(bytes),
        Ok(Got::Missing) => Err(file_status(alloc, name, FileCause::Missing)),
        Ok(Got::TooLong) => Err(file_status(alloc, name, FileCause::TooLong)),
        Ok(Got::Failed) => Err(Status::ReadFault),
        Err(NoMemory) => Err(Status::NoMemory),
    }
}

/// The job of the file of a name, or the status that reading it ends with.
pub(crate) fn read_job<F: Folder>(alloc: Global, folder: &mut F, name: &str) -> Result<Job, Status>
    ensures job { IfOk result (λ job. IsReadJob (F.files folder.old) name.now job) }
    ensures runnable { IfOk result (λ job. AreRunnable (length job.modules) job.actors) }
    ensures status { IfErr result (λ status. EndsJob (F.files folder.old) name.now status) }
    ensures read { result ≡ Err Status.ReadFault → Rose (F.faults folder.old) (F.faults folder.new) }
    ensures files { F.files folder.new ≡ F.files folder.old }
    ensures later { F.faults folder.old ≤ F.faults folder.new }
{
    let text = read_file(alloc, folder, name, MAX_JOB_LENGTH)?;
    match job_of(alloc, text.as_slice()) {
        Ok(job) => Ok(job),
        Err(JobFail::Refused(refusal)) => Err(Status::Job(refusal)),
        Err(JobFail::NoMemory) => Err(Status::NoMemory),
    }
}
