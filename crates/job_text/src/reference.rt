//! Back references: tokens of table 0xFF, which stand for what an earlier command of the actor made.

ghost use Rattle.std.specs.Prelude.{◌≡◌, IfOk, map};
ghost use Rattle.job_text.specs.References.{replaced_cell, replaced_handler, replaced_instr, replaced_kind, replaced_operand, replaced_token};

use cil_base::{List, NoMemory, Token};
use il_code::{Handler, HandlerKind, Instr, Operand};
use node_model::Cell;
use std::alloc::Global;

/// The table of a back reference. Its row number is the number of the command.
pub const BACK_REFERENCE: u8 = 0xff;

/// What a token stands for. `made` has, of each command of the actor up to now, the token of the row that it made, if it
/// made one. A back reference to another command stands for the root.
#[tactic(auto, unfolding(crate::specs::References::replaced_token))]
pub fn replace_token(made: &[Option<Token>], token: Token) -> Token
    ensures { result ≡ replaced_token made.now token }
{
    if token.table != BACK_REFERENCE {
        return token;
    }
    match made.get(token.rid as usize) {
        Some(Some(row)) => *row,
        Some(None) => Token::ROOT,
        None => Token::ROOT,
    }
}

/// A cell in which no back reference is left, of its own.
#[tactic(auto, unfolding(crate::specs::References::replaced_cell))]
pub(crate) fn replace_in_cell(
    alloc: Global,
    made: &[Option<Token>],
    cell: &Cell,
) -> Result<Cell, NoMemory>
    ensures { IfOk result (λ own. own ≡ replaced_cell made.now cell.now) }
{
    match cell {
        Cell::Num(number) => Ok(Cell::Num(*number)),
        Cell::Text(text) => Ok(Cell::Text(text.copy()?)),
        Cell::Guid(bytes) => Ok(Cell::Guid(*bytes)),
        Cell::NoGuid => Ok(Cell::NoGuid),
        Cell::Blob(bytes) => Ok(Cell::Blob(bytes.copy()?)),
        Cell::Ref(token) => Ok(Cell::Ref(replace_token(made, *token))),
        Cell::NoRef => Ok(Cell::NoRef),
    }
}

/// Cells in which no back reference is left, of their own.
pub(crate) fn replace_in_cells(
    alloc: Global,
    made: &[Option<Token>],
    cells: &List<Cell>,
) -> Result<List<Cell>, NoMemory>
    ensures { IfOk result (λ own. own ≡ map (replaced_cell made.now) cells.now) }
{
    let mut all = List::new(alloc);
    for cell in cells.as_slice() {
        all.push(replace_in_cell(alloc, made, cell)?)?;
    }
    Ok(all)
}

/// An operand in which no back reference is left, of its own.
#[tactic(auto, unfolding(crate::specs::References::replaced_operand))]
fn replace_in_operand(made: &[Option<Token>], operand: &Operand) -> Result<Operand, NoMemory>
    ensures { IfOk result (λ own. own ≡ replaced_operand made.now operand.now) }
{
    match operand {
        Operand::Tok(token) => Ok(Operand::Tok(replace_token(made, *token))),
        Operand::None => Ok(Operand::None),
        Operand::U8(value) => Ok(Operand::U8(*value)),
        Operand::U16(value) => Ok(Operand::U16(*value)),
        Operand::I8(value) => Ok(Operand::I8(*value)),
        Operand::I32(value) => Ok(Operand::I32(*value)),
        Operand::I64(value) => Ok(Operand::I64(*value)),
        Operand::R4(bits) => Ok(Operand::R4(*bits)),
        Operand::R8(bits) => Ok(Operand::R8(*bits)),
        Operand::Text(units) => Ok(Operand::Text(units.copy()?)),
        Operand::Target(target) => Ok(Operand::Target(*target)),
        Operand::Switch(targets) => Ok(Operand::Switch(targets.copy()?)),
    }
}

/// An instruction in which no back reference is left, of its own.
pub(crate) fn replace_in_instr(made: &[Option<Token>], instr: &Instr) -> Result<Instr, NoMemory>
    ensures { IfOk result (λ own. own ≡ replaced_instr made.now instr.now) }
{
    let operand = replace_in_operand(made, &instr.operand)?;
    Ok(Instr {
        op: instr.op,
        operand,
    })
}

/// What a handler is for, with no back reference left.
#[tactic(auto, unfolding(crate::specs::References::replaced_kind))]
fn replace_in_kind(made: &[Option<Token>], kind: HandlerKind) -> HandlerKind
    ensures { result ≡ replaced_kind made.now kind }
{
    match kind {
        HandlerKind::Typed(token) => HandlerKind::Typed(replace_token(made, token)),
        HandlerKind::Filter(start) => HandlerKind::Filter(start),
        HandlerKind::Finally => HandlerKind::Finally,
        HandlerKind::Fault => HandlerKind::Fault,
    }
}

/// A handler in which no back reference is left.
pub(crate) fn replace_in_handler(made: &[Option<Token>], handler: &Handler) -> Handler
    ensures { result ≡ replaced_handler made.now handler.now }
{
    Handler {
        kind: replace_in_kind(made, handler.kind),
        try_start: handler.try_start,
        try_end: handler.try_end,
        start: handler.start,
        end: handler.end,
    }
}
