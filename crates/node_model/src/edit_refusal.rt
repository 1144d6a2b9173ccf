ghost use Rattle.std.specs.Prelude.{◌≡◌};
ghost use Rattle.node_model.specs.EditRefusals.{edit_refusal_number};

use crate::slot::Fault;
use cil_base::Token;

/// Why an edit is refused. The refusals are tried in this order; those up to `TableFull` before any key is looked at.
#[derive(Clone, Copy, PartialEq, Eq)]
pub enum EditRefusal {
    /// The owner, or the row that is edited, is none.
    Absent(Token),
    /// The owner, or the row that is edited, was removed.
    Removed(Token),
    /// The edit does not fit the table. Of Set the column, which is no cell, is a link, or holds another kind of cell.
    /// Of Add and Insert the first cell that does not fit its column; the lesser number where there are more columns or
    /// more cells; the number of cells where the signature alone does not fit. Else 0.
    BadColumn(u64),
    /// The first number that passes the greatest of its column: the number, and that greatest one.
    NumberTooWide(u64, u64),
    /// The place of the zero byte in the first text that has one.
    BadText(u64),
    /// The first token that the edit names and that is no row, was removed, or is of a table that its place does not
    /// allow. The root, where a link column is null.
    BadRef(Token),
    /// The table has as many rows as it may have, those counted that were added and those that were removed.
    TableFull(u64),
    /// The fault of the first key that the edit looks at and that is at fault.
    Reached(Fault),
    /// The place, and the number that it is beyond: of the rows of the list, of instructions or of handlers.
    PlaceBeyond(u64, u64),
    /// The row is not in the owner's list, or the method has no IL body.
    NotThere(Token),
    /// The number of the first instruction with a target that is none, or whose operand is not of its code's kind.
    BadCode(u64),
    /// The number of the first handler with an end before its start, an end past the instructions, or a filter that
    /// begins at none.
    BadHandler(u64),
}

impl EditRefusal {
    /// The refusal's number, from 1, in the order in which they are tried.
    pub fn number(&self) -> u8
        ensures { result ≡ edit_refusal_number self.now }
    {
        match self {
            EditRefusal::Absent(_) => 1,
            EditRefusal::Removed(_) => 2,
            EditRefusal::BadColumn(_) => 3,
            EditRefusal::NumberTooWide(_, _) => 4,
            EditRefusal::BadText(_) => 5,
            EditRefusal::BadRef(_) => 6,
            EditRefusal::TableFull(_) => 7,
            EditRefusal::Reached(_) => 8,
            EditRefusal::PlaceBeyond(_, _) => 9,
            EditRefusal::NotThere(_) => 10,
            EditRefusal::BadCode(_) => 11,
            EditRefusal::BadHandler(_) => 12,
        }
    }
}
