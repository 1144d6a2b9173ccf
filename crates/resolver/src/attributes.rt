//! Attributes and their constructors (ECMA-335 II.22.10, II.23.3).

ghost use Rattle.std.specs.Prelude.{◌≡◌, ◌∷◌, ◌++◌, [], codes, IfOk};
ghost use Rattle.node_model.specs.RowTexts.{token_named};
ghost use Rattle.resolver.specs.Attributes.{after_attribute, after_constructor, after_name, after_names};
ghost use Rattle.resolver.specs.Attributes.{after_type_cell, begun_reading, new_reading};
ghost use Rattle.resolver.specs.Found.{on_name, on_row, on_sig};
ghost use Rattle.resolver.specs.Questions.{attribute_question, parameter_question};

use crate::cells::{blob_named, token_named};
use crate::found::stopped;
use crate::next::{Next, question};
use crate::parameters::{asked_of, parameters_of};
use crate::reading::Reading;
use crate::state::{Advance, Stage, State};
use crate::values::{after_names, bad_attribute};
use cil_base::{Bytes, List, NoMemory, Token};
use node_model::{Query, Reply, RowValue};
use sig_tree::{SigTree, TypeSig};
use std::alloc::Global;

/// What is asked of an attribute first.
#[derive(Drop)]
pub(crate) enum AttributeStage {
    /// Its row.
    Row(Token),
    /// The signature of its constructor, with its blob.
    Constructor { token: Token, blob: Bytes },
    /// The name of the first class or value type among the parameters whose name is not known.
    Parameter,
}

fn parameter_question(home: u32, reading: &Option<Reading>) -> Result<Next, NoMemory>
    ensures { IfOk result (λ next. next ≡ parameter_question home reading.now) }
{
    let Some(reading) = reading else {
        return Ok(Next::BadAttribute);
    };
    match reading.asked.as_slice().get(reading.names.len()) {
        Some(asked) => question(home, Query::Name(asked.token)),
        None => Ok(Next::BadAttribute),
    }
}

impl AttributeStage {
    pub(crate) fn question(&self, state: &State) -> Result<Next, NoMemory>
        ensures { IfOk result (λ next. next ≡ attribute_question state.now self.now) }
    {
        match self {
            AttributeStage::Row(token) => question(state.home, Query::Row(*token)),
            AttributeStage::Constructor { token, .. } => question(state.home, Query::Sig(*token)),
            AttributeStage::Parameter => parameter_question(state.home, &state.reading),
        }
    }
}

/// What is known where the constructor has parameters of these types.
fn new_reading(alloc: Global, blob: &Bytes, types: &[TypeSig]) -> Result<Reading, NoMemory>
    ensures { IfOk result (λ reading. reading ≡ new_reading blob.now types.now) }
{
    let blob = blob.copy()?;
    let params = parameters_of(alloc, types)?;
    let asked = asked_of(alloc, params.as_slice())?;
    Ok(Reading {
        blob,
        params,
        asked,
        names: List::new(alloc),
        types: List::new(alloc),
        widths: List::new(alloc),
        wanted: List::new(alloc),
    })
}

fn begun_reading(alloc: Global, state: &State, reading: Reading) -> Result<Advance, NoMemory>
    ensures { IfOk result (λ advance. advance ≡ begun_reading state.now reading) }
{
    if reading.asked.len() == 0 {
        return after_names(alloc, state, reading);
    }
    Ok(Advance::Reads {
        reading,
        waiting: List::new(alloc),
        stage: Stage::Attribute(AttributeStage::Parameter),
    })
}

/// The constructor by its signature.
fn after_constructor(
    alloc: Global,
    state: &State,
    blob: &Bytes,
    sig: &SigTree,
) -> Result<Advance, NoMemory>
    ensures { IfOk result (λ advance. advance ≡ after_constructor state.now blob.now sig.now) }
{
    match sig {
        SigTree::Method(method) => {
            let reading = new_reading(alloc, blob, method.params.as_slice())?;
            begun_reading(alloc, state, reading)
        }
        _ => Ok(bad_attribute()),
    }
}

fn after_sig(alloc: Global, state: &State, blob: &Bytes, reply: &Reply) -> Result<Advance, NoMemory>
    ensures { IfOk result (λ advance. advance ≡ on_sig reply.now (after_constructor state.now blob.now)) }
{
    match reply {
        Reply::Sig(_, sig) => after_constructor(alloc, state, blob, sig.tree()),
        _ => stopped(alloc, reply),
    }
}

/// The row of the attribute by its cell Type.
fn after_type_cell(alloc: Global, row: &RowValue, ty: Option<Token>) -> Result<Advance, NoMemory>
    ensures { IfOk result (λ advance. advance ≡ after_type_cell row.now ty) }
{
    let Some(token) = ty else {
        return Ok(bad_attribute());
    };
    let blob = List::from_slice(alloc, blob_named(row, b"Value"))?;
    Ok(Advance::To(Stage::Attribute(AttributeStage::Constructor { token, blob })))
}

fn after_row(alloc: Global, reply: &Reply) -> Result<Advance, NoMemory>
    ensures { IfOk result (λ advance. advance ≡ on_row reply.now
        (λ row. after_type_cell row (token_named (codes "Type") row))) }
{
    match reply {
        Reply::Row(row) => after_type_cell(alloc, row, token_named(row, b"Type")),
        _ => stopped(alloc, reply),
    }
}

/// The last of the names.
fn after_last_name(
    alloc: Global,
    state: &State,
    reading: &Reading,
    name: Bytes,
) -> Result<Advance, NoMemory>
    ensures { IfOk result (λ advance. advance
        ≡ after_names state.now (record reading.now { names = reading.now.names ++ name ∷ [] })) }
{
    let mut reading = reading.copy(alloc)?;
    reading.names.push(name)?;
    after_names(alloc, state, reading)
}

/// The name of the type of a parameter.
fn after_name(alloc: Global, state: &State, name: &Bytes) -> Result<Advance, NoMemory>
    ensures { IfOk result (λ advance. advance ≡ after_name state.now name.now state.now.reading) }
{
    let Some(reading) = &state.reading else {
        return Ok(bad_attribute());
    };
    let name = name.copy()?;
    if reading.names.len() == reading.asked.len().saturating_sub(1) {
        return after_last_name(alloc, state, reading, name);
    }
    Ok(Advance::Named(name))
}

fn after_parameter(alloc: Global, state: &State, reply: &Reply) -> Result<Advance, NoMemory>
    ensures { IfOk result (λ advance. advance ≡ on_name reply.now
        (λ name. after_name state.now name state.now.reading)) }
{
    match reply {
        Reply::Name(_, name) => after_name(alloc, state, name),
        _ => stopped(alloc, reply),
    }
}

/// What the reply leads to.
pub(crate) fn after_attribute(
    alloc: Global,
    state: &State,
    stage: &AttributeStage,
    reply: &Reply,
) -> Result<Advance, NoMemory>
    ensures { IfOk result (λ advance. advance ≡ after_attribute state.now stage.now reply.now) }
{
    match stage {
        AttributeStage::Row(_) => after_row(alloc, reply),
        AttributeStage::Constructor { blob, .. } => after_sig(alloc, state, blob, reply),
        AttributeStage::Parameter => after_parameter(alloc, state, reply),
    }
}
