ghost use Rattle.std.specs.Prelude.{◌≡◌};
ghost use Rattle.job_text.specs.NewRows.{edit_row, made_row};

use crate::command::Command;
use node_model::Edit;

/// The module and the table of a row that a command makes.
#[derive(Clone, Copy)]
pub struct NewRow {
    pub module: u32,
    pub table: u8,
}

/// The row that a command makes, which has the table that is named. None exactly where the command is no `add` and no
/// `insert`.
#[tactic(auto, unfolding(crate::specs::NewRows::made_row))]
pub(crate) fn made_row(command: &Command) -> Option<NewRow>
    ensures { result ≡ made_row command.now }
{
    match command {
        Command::Query { .. } => None,
        Command::Edit { module, edit } => edit_row(*module, edit),
        Command::Resolve { .. } => None,
        Command::Attribute { .. } => None,
    }
}

/// The row that an edit of a module makes.
fn edit_row(home: u32, edit: &Edit) -> Option<NewRow>
    ensures { result ≡ edit_row home edit.now }
{
    match edit {
        Edit::Add { table, .. } => Some(NewRow {
            module: home,
            table: *table,
        }),
        Edit::Insert { table, .. } => Some(NewRow {
            module: home,
            table: *table,
        }),
        _ => None,
    }
}
