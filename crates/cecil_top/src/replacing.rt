//! Commands in which no back reference is left.
ghost use Rattle.std.specs.Prelude.{◌≡◌, ◌∷◌, ◌++◌, [], OnOk};
ghost use Rattle.job_text.specs.References.{replaced_command};

use cil_base::{List, NoMemory, Token};
use job_text::{Command, replace_references};
use std::alloc::Global;

/// Puts a command behind the others, with each back reference replaced by the token of the row that the command of its
/// number made, or by the root.
pub(crate) fn push_replaced(
    alloc: Global,
    commands: &mut List<Command>,
    given: &Command,
    made: &[Option<Token>],
) -> Result<(), NoMemory>
    ensures { OnOk result (commands.new ≡ commands.old ++ replaced_command made.now given.now ∷ []) }
{
    match replace_references(alloc, made, given) {
        Ok(command) => commands.push(command),
        Err(NoMemory) => Err(NoMemory),
    }
}
