ghost use Rattle.std.specs.Prelude.{◌≡◌, ◌≤◌, None, OnErr, OnOk};
ghost use Rattle.std.specs.Io.KnownBytes.{Appends};
ghost use Rattle.cil_outside.specs.Causes.{Rose};
ghost use Rattle.cecil.specs.Writes.{AppendsPart};

use cil_base::NoMemory;
use cil_outside::{Outlet, Sent};
use std::alloc::Global;
use std::fs;
use std::io::{self, ErrorKind, Write};
use std::rt::Files;

/// A writer as an outlet, which puts its files into the current folder. It tells of its text what its writer tells, and
/// nothing of its files.
#[derive(Drop)]
pub struct StandardOutput<'a, W: Write + Drop, R: Files> {
    out: W,
    files: &'a R,
    faults: u64,
}

impl<'a, W: Write + Drop, R: Files> StandardOutput<'a, W, R> {
    /// An outlet over a writer and the current folder, without a fault so far.
    pub fn new(out: W, files: &'a R) -> StandardOutput<'a, W, R>
        ensures faults { result.faults ≡ 0 }
        ensures out { result.out ≡ out }
    {
        StandardOutput {
            out,
            files,
            faults: 0,
        }
    }

    /// Counts a fault.
    fn count_fault(&mut self) -> Sent
        ensures sent { result ≡ Sent.Failed }
        ensures out { self.new.out ≡ self.old.out }
        ensures faults { (self.old.faults ≤ self.new.faults) × Rose self.old.faults self.new.faults }
    {
        self.faults = self.faults.saturating_add(1);
        Sent::Failed
    }
}

/// Writes all bytes. A write that takes nothing is an error. An error leaves a part of the bytes, from their front.
pub fn write_whole<W: Write>(out: &mut W, bytes: &[u8]) -> io::Result<()>
    ensures all { OnOk result (Appends (W.contents out.old) (W.contents out.new) bytes.now) }
    ensures part { OnErr result (AppendsPart (W.contents out.old) (W.contents out.new) bytes.now) }
{
    let mut rest = bytes;
    while !rest.is_empty() {
        let count = out.write(rest)?;
        if count == 0 {
            return Err(io::Error::from(ErrorKind::WriteZero));
        }
        rest = &rest[count..];
    }
    out.flush()
}

/// Makes the bytes the content of the file of a name, in place of what it held.
fn write_file<R: Files>(files: &R, name: &str, bytes: &[u8]) -> io::Result<()> {
    let mut file = fs::create(files, name)?;
    write_whole(&mut file, bytes)
}

impl<'a, W: Write + Drop, R: Files> Outlet for StandardOutput<'a, W, R> {
    ghost written = { λ o. W.contents o.out };

    ghost puts = { λ _. None };

    ghost faults = { λ o. o.faults };

    fn text(&mut self, _alloc: Global, bytes: &[u8]) -> Result<Sent, NoMemory> {
        match write_whole(&mut self.out, bytes) {
            Ok(()) => Ok(Sent::Done),
            Err(_) => Ok(self.count_fault()),
        }
    }

    fn put(&mut self, _alloc: Global, name: &str, bytes: &[u8]) -> Result<Sent, NoMemory> {
        match write_file(self.files, name, bytes) {
            Ok(()) => Ok(Sent::Done),
            Err(_) => Ok(self.count_fault()),
        }
    }
}
