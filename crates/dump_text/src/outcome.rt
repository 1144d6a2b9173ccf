ghost use Rattle.std.specs.Prelude.{◌≡◌, ◌∷◌, ◌++◌, IfOk, OnOk};
ghost use Rattle.dump_text.specs.Outcomes.{done_text, edit_refusal_name, edit_refusal_text, edit_refusal_told};
ghost use Rattle.dump_text.specs.Outcomes.{outcome_text, two_numbers};

use crate::fault::add_placed_fault;
use crate::key::add_word;
use crate::pieces::add_decimal;
use cil_base::{Bytes, List, NoMemory, Token};
use graph_edits::Outcome;
use node_model::EditRefusal;
use std::alloc::Global;

/// The name of a refusal.
fn refusal_name(refusal: &EditRefusal) -> &'static [u8]
    ensures { result.now ≡ edit_refusal_name refusal.now }
{
    match refusal {
        EditRefusal::Absent(_) => b"Absent",
        EditRefusal::Removed(_) => b"Removed",
        EditRefusal::BadColumn(_) => b"BadColumn",
        EditRefusal::NumberTooWide(_, _) => b"NumberTooWide",
        EditRefusal::BadText(_) => b"BadText",
        EditRefusal::BadRef(_) => b"BadRef",
        EditRefusal::TableFull(_) => b"TableFull",
        EditRefusal::Reached(_) => b"Reached",
        EditRefusal::PlaceBeyond(_, _) => b"PlaceBeyond",
        EditRefusal::NotThere(_) => b"NotThere",
        EditRefusal::BadCode(_) => b"BadCode",
        EditRefusal::BadHandler(_) => b"BadHandler",
    }
}

/// Adds two numbers with a comma between them.
fn add_two_numbers(text: &mut Bytes, first: u64, second: u64) -> Result<(), NoMemory>
    ensures { OnOk result (text.new ≡ text.old ++ two_numbers first second) }
{
    add_decimal(text, first)?;
    text.push(b',')?;
    add_decimal(text, second)
}

/// Adds what a refusal tells.
fn add_told(text: &mut Bytes, refusal: &EditRefusal) -> Result<(), NoMemory>
    ensures { OnOk result (text.new ≡ text.old ++ edit_refusal_told refusal.now) }
{
    match refusal {
        EditRefusal::Absent(token) => add_word(text, b"", *token),
        EditRefusal::Removed(token) => add_word(text, b"", *token),
        EditRefusal::BadColumn(number) => add_decimal(text, *number),
        EditRefusal::NumberTooWide(value, limit) => add_two_numbers(text, *value, *limit),
        EditRefusal::BadText(place) => add_decimal(text, *place),
        EditRefusal::BadRef(token) => add_word(text, b"", *token),
        EditRefusal::TableFull(rows) => add_decimal(text, *rows),
        EditRefusal::Reached(fault) => add_placed_fault(text, fault),
        EditRefusal::PlaceBeyond(at, length) => add_two_numbers(text, *at, *length),
        EditRefusal::NotThere(token) => add_word(text, b"", *token),
        EditRefusal::BadCode(number) => add_decimal(text, *number),
        EditRefusal::BadHandler(number) => add_decimal(text, *number),
    }
}

/// Adds a refusal: its number, its name, and what it tells in brackets.
fn add_refusal(text: &mut Bytes, refusal: &EditRefusal) -> Result<(), NoMemory>
    ensures { OnOk result (text.new ≡ text.old ++ edit_refusal_text refusal.now) }
{
    text.extend(b"refused ")?;
    add_decimal(text, u64::from(refusal.number()))?;
    text.push(b' ')?;
    text.extend(refusal_name(refusal))?;
    text.push(b'(')?;
    add_told(text, refusal)?;
    text.push(b')')
}

/// Adds that an edit is done, with the token of the row that it made, if it made one.
fn add_done(text: &mut Bytes, made: Option<Token>) -> Result<(), NoMemory>
    ensures { OnOk result (text.new ≡ text.old ++ done_text made) }
{
    match made {
        Some(token) => add_word(text, b"done ", token),
        None => text.extend(b"done"),
    }
}

/// The text of an answer to an edit, without a line feed.
#[tactic(auto, unfolding(crate::specs::Outcomes::outcome_text))]
pub fn outcome_text(alloc: Global, outcome: &Outcome) -> Result<Bytes, NoMemory>
    ensures { IfOk result (λ text. text ≡ outcome_text outcome.now) }
{
    let mut text = List::new(alloc);
    match outcome {
        Outcome::Done(made) => add_done(&mut text, *made)?,
        Outcome::Refused(refusal) => add_refusal(&mut text, refusal)?,
    }
    Ok(text)
}
