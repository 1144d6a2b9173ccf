ghost use Rattle.std.specs.Prelude.{◌≡◌, ◌≢◌, OnOk};
ghost use Rattle.std.specs.Io.KnownBytes.{Appends, Keeps};
ghost use Rattle.std.specs.Process.{exit_status};
ghost use Rattle.cecil_inspect.specs.Statuses.{number_of};
ghost use Rattle.cecil_inspect.specs.Lines.{line};
ghost use Rattle.cecil.specs.Writes.{Tells};

use crate::standard_output::write_whole;
use cecil_top::{Status, status_line};
use cil_base::NoMemory;
use std::alloc::Global;
use std::io::{self, Write};
use std::process::ExitCode;

/// Writes a text and the line feed that ends it.
fn say<W: Write>(errors: &mut W, text: &[u8]) -> io::Result<()>
    ensures { OnOk result (Appends (W.contents errors.old) (W.contents errors.new) (line text.now)) }
{
    write_whole(errors, text)?;
    write_whole(errors, b"\n")
}

/// Writes the line of a status, or that of want of memory where there is none for the line.
fn tell_line<W: Write>(alloc: Global, errors: &mut W, status: &Status) -> io::Result<()>
    ensures { OnOk result (Tells (W.contents errors.old) (W.contents errors.new) status.now) }
{
    match status_line(alloc, status) {
        Ok(line) => say(errors, line.as_slice()),
        Err(NoMemory) => say(errors, b"cecil: no memory"),
    }
}

/// Writes the line of a status; nothing for Ok.
pub fn tell<W: Write>(alloc: Global, errors: &mut W, status: &Status) -> io::Result<()>
    ensures quiet { status.now ≡ Status.Ok → Keeps (W.contents errors.old) (W.contents errors.new) }
    ensures line { OnOk result (status.now ≢ Status.Ok
        → Tells (W.contents errors.old) (W.contents errors.new) status.now) }
{
    match status {
        Status::Ok => Ok(()),
        _ => tell_line(alloc, errors, status),
    }
}

/// The number of a status, for the system.
pub fn exit_code(status: &Status) -> ExitCode
    ensures { exit_status result ≡ number_of status.now }
{
    ExitCode::from(status.number())
}
