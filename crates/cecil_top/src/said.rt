ghost use Rattle.std.specs.Prelude.{◌≡◌, ℕ, Some, slice_get, length, ◌<◌, OnOk};
ghost use Rattle.cecil_top.specs.Commands.{outcome_row, said_token};
ghost use Rattle.cecil_top.specs.declared.said.Said.{Said};
ghost use Rattle.cecil_top.specs.inner.Passes.{IsToldAnswer, IsToldEdit, IsToldResolution};

use cil_base::{List, NoMemory, Token};
use graph_edits::Outcome;
use node_model::Query;
use resolver::Next;
use shared_module::{Answer, Edited};

/// A question of a resolution, with the number of the module that was asked, and its answer.
#[derive(Drop)]
pub struct Asked {
    pub home: u32,
    pub query: Query,
    pub answer: Answer,
}

/// Where a reference led, or what an attribute says, with all that was asked for it, in order.
#[derive(Drop)]
pub struct Resolution {
    pub asked: List<Asked>,
    pub end: Next,
}

/// What was answered to a command, with the point of its module's history at which it is true.
#[derive(Drop)]
pub enum Said {
    /// To a query.
    Query(Answer),
    /// To an edit.
    Edit(Edited),
    /// To a reference that is followed, or an attribute that is read.
    Resolved(Resolution),
}

/// The row that an edit made.
fn row_made(outcome: &Outcome) -> Option<Token>
    ensures { result ≡ outcome_row outcome.now }
{
    match outcome {
        Outcome::Done(made) => *made,
        Outcome::Refused(_) => None,
    }
}

impl Said {
    /// The token of the row that the command made, if it made one.
    pub fn token_made(&self) -> Option<Token>
        ensures { result ≡ said_token self.now }
    {
        match self {
            Said::Query(_) => None,
            Said::Edit(edited) => row_made(&edited.outcome),
            Said::Resolved(_) => None,
        }
    }
}

/// The token of the row that the command of this number made, if it made one.
pub(crate) fn token_made_at(said: &[Said], place: u32) -> Option<Token>
    requires { place < length said.now }
    ensures { (a : Said) → slice_get said.now place ≡ Some a → result ≡ said_token a }
{
    said[place as usize].token_made()
}

/// Puts an answer, if there is one, behind what was said.
pub(crate) fn tell_answer(
    said: &mut List<Said>,
    answer: Result<Answer, NoMemory>,
) -> Result<(), NoMemory>
    ensures { OnOk result (IsToldAnswer answer said.old said.new) }
{
    match answer {
        Ok(answer) => said.push(Said::Query(answer)),
        Err(NoMemory) => Err(NoMemory),
    }
}

/// Puts what an edit came to, if it came to something, behind what was said.
pub(crate) fn tell_edit(
    said: &mut List<Said>,
    edited: Result<Edited, NoMemory>,
) -> Result<(), NoMemory>
    ensures { OnOk result (IsToldEdit edited said.old said.new) }
{
    match edited {
        Ok(edited) => said.push(Said::Edit(edited)),
        Err(NoMemory) => Err(NoMemory),
    }
}

/// Puts a resolution, if there is one, behind what was said.
pub(crate) fn tell_resolution(
    said: &mut List<Said>,
    resolution: Result<Resolution, NoMemory>,
) -> Result<(), NoMemory>
    ensures { OnOk result (IsToldResolution resolution said.old said.new) }
{
    match resolution {
        Ok(resolution) => said.push(Said::Resolved(resolution)),
        Err(NoMemory) => Err(NoMemory),
    }
}
