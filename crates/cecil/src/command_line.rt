ghost use Rattle.std.specs.Prelude.{◌≡◌, ◌≢◌, ◌↔◌, IfOk, drop};
ghost use Rattle.std.specs.IoError.{error_kind};
ghost use Rattle.std.specs.Vec.Iter.{into_iter_items};

use cecil_top::Status;
use cil_base::NoMemory;
use std::alloc::Global;
use std::env::{self, Args};
use std::io::{self, ErrorKind};

/// The words after the first, which is the program's name.
fn after_the_first(alloc: Global, args: Args) -> Result<Vec<String>, NoMemory>
    ensures { IfOk result (λ words. words.items ≡ drop 1 (into_iter_items args)) }
{
    let mut args = args;
    args.next();
    let mut words = Vec::new(alloc);
    'taking: while let Some(word) = args.next() {
        words.push(word)?;
    }
    Ok(words)
}

/// The status of a command line that is not read: it is faulty where one of its words is not UTF-8.
fn not_read(error: &io::Error) -> Status
    ensures memory { result ≡ Status.NoMemory ↔ error_kind error.now ≡ ErrorKind.OutOfMemory }
    ensures usage { result ≡ Status.Usage ↔ error_kind error.now ≢ ErrorKind.OutOfMemory }
{
    if error.kind() == ErrorKind::OutOfMemory {
        return Status::NoMemory;
    }
    Status::Usage
}

/// The words after the program's name.
pub fn words(rt: &HostRuntime) -> Result<Vec<String>, Status> {
    match env::args(rt) {
        Ok(args) => match after_the_first(rt.alloc(), args) {
            Ok(words) => Ok(words),
            Err(NoMemory) => Err(Status::NoMemory),
        },
        Err(error) => Err(not_read(&error)),
    }
}
