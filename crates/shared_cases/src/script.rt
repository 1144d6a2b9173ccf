use crate::command::{add_type, row, set_flags, set_name, type_row, types};
use cil_base::{List, NoMemory};
use node_model::{Edit, Query};
use std::alloc::Global;

/// The row of the module (ECMA-335 II.22.30).
const MODULE: u32 = 0x0000_0001;

/// A number that has no place in four bytes.
const TOO_GREAT: u64 = 0x1_0000_0000;

/// What each caller of a run does.
#[derive(Clone, Copy)]
pub enum Script {
    /// Caller 0 asks for the first type twice; caller 1 sets its name to `X`, and its flags to a number too great.
    Turns,
    /// Caller 0 asks for the first type, another for the module.
    Rows,
    /// 200 commands: a query, a change of the flags, another query, a change of the name or a new type, and so on.
    Many,
    /// Each asks for the rows of so many types, in order.
    Types(u32),
}

impl Script {
    /// How many commands each caller has.
    pub fn count(self) -> u32 {
        match self {
            Script::Turns => 2,
            Script::Rows => 1,
            Script::Many => 200,
            Script::Types(count) => count,
        }
    }

    /// Whether what is answered is printed.
    pub fn is_told(self) -> bool {
        matches!(self, Script::Turns)
    }

    /// The query of a command, by its number; none where the command edits.
    pub fn query(self, caller: u32, number: u32) -> Option<Query> {
        match self {
            Script::Turns if caller == 0 => Some(type_row(0)),
            Script::Turns => None,
            Script::Rows if caller == 0 => Some(type_row(0)),
            Script::Rows => Some(row(MODULE)),
            Script::Many => match number % 4 {
                0 => Some(type_row(0)),
                2 => Some(types()),
                _ => None,
            },
            Script::Types(_) => Some(type_row(number)),
        }
    }

    /// The edit of a command that does not ask, as a list of one.
    pub fn edit(self, alloc: Global, caller: u32, number: u32) -> Result<List<Edit>, NoMemory> {
        match self {
            Script::Many => many(alloc, caller, number),
            _ if number == 0 => set_name(alloc, "X"),
            _ => set_flags(alloc, TOO_GREAT),
        }
    }
}

/// The edit of one of many commands, which no other has.
fn many(alloc: Global, caller: u32, number: u32) -> Result<List<Edit>, NoMemory> {
    if number % 4 == 1 {
        return set_flags(alloc, u64::from(caller) * 1000 + u64::from(number));
    }
    let name = format!(in alloc; "N{caller}.{number}")?;
    if number % 20 == 19 {
        add_type(alloc, name.as_str())
    } else {
        set_name(alloc, name.as_str())
    }
}
