ghost use Rattle.std.specs.Prelude.{◌≡◌, IfOk};
ghost use Rattle.job_text.specs.declared.command.Command.TheVariants as commands;

use cil_base::{List, NoMemory, Token};
use node_model::{Edit, Query};
use std::alloc::Global;

/// What an actor does with a module, by the module's number in the job. A token of table 0xFF is a back reference: it
/// stands for the row that the actor's command of that number made, counted from 0, or for the root where it made none.
#[derive(Drop)]
pub enum Command {
    /// A question.
    Query { module: u32, query: Query },
    /// A change.
    Edit { module: u32, edit: Edit },
    /// Which row a reference stands for, looked for in all modules.
    Resolve { module: u32, token: Token },
    /// What a CustomAttribute row says.
    Attribute { module: u32, token: Token },
}

/// A question to a module, of its own.
fn copy_query(alloc: Global, home: u32, query: &Query) -> Result<Command, NoMemory>
    ensures { IfOk result (λ copy. copy ≡ commands.Query home query.now) }
{
    let query = query.copy(alloc)?;
    Ok(Command::Query {
        module: home,
        query,
    })
}

/// A change of a module, of its own.
fn copy_edit(alloc: Global, home: u32, edit: &Edit) -> Result<Command, NoMemory>
    ensures { IfOk result (λ copy. copy ≡ commands.Edit home edit.now) }
{
    let edit = edit.copy(alloc)?;
    Ok(Command::Edit { module: home, edit })
}

impl Command {
    /// An equal command of its own.
    pub fn copy(&self, alloc: Global) -> Result<Command, NoMemory>
        ensures { IfOk result (λ copy. copy ≡ self.now) }
    {
        match self {
            Command::Query { module, query } => copy_query(alloc, *module, query),
            Command::Edit { module, edit } => copy_edit(alloc, *module, edit),
            Command::Resolve { module, token } => Ok(Command::Resolve {
                module: *module,
                token: *token,
            }),
            Command::Attribute { module, token } => Ok(Command::Attribute {
                module: *module,
                token: *token,
            }),
        }
    }
}

/// Equal commands of their own.
pub(crate) fn copy_commands(
    alloc: Global,
    commands: &List<Command>,
) -> Result<List<Command>, NoMemory>
    ensures { IfOk result (λ copy. copy ≡ commands.now) }
{
    let mut all = List::new(alloc);
    for command in commands.as_slice() {
        all.push(command.copy(alloc)?)?;
    }
    Ok(all)
}
