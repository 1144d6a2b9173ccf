//! How the value of an attribute is read: the enums whose widths are needed are looked for (ECMA-335 II.23.3).

ghost use Rattle.std.specs.Prelude.{◌≡◌, IfOk, None};
ghost use Rattle.resolver.specs.Attributes.{after_names, bad_attribute, enum_stage, looked_by, looked_for};
ghost use Rattle.resolver.specs.Attributes.{read_blob, read_on, without_arguments};
ghost use Rattle.resolver.specs.EnumNames.{enum_assembly, enum_type_name, search_stage};

use crate::enum_names::{enum_assembly, enum_type_name, nested_waiting};
use crate::enum_widths::EnumStage;
use crate::found::{ended, first_stage, is_definition};
use crate::named_types::TypeStage;
use crate::parameters::{Parameter, types_of, value_token};
use crate::reading::Reading;
use crate::state::{Advance, End, Stage, State};
use attr_blob::{AttrRead, AttrValue, decode_attr};
use cil_base::{List, NoMemory, Token};
use std::alloc::Global;

pub(crate) fn bad_attribute() -> Advance
    ensures { result ≡ bad_attribute }
{
    ended(End::BadAttribute)
}

/// The first stage of the search for an enum by its token.
fn enum_stage(at: u32, token: Token) -> Stage
    ensures { result ≡ enum_stage at token }
{
    if is_definition(token.table) {
        return Stage::EnumType(EnumStage::Fields { at, of: token });
    }
    first_stage(at, token)
}

/// The first stage of the search for an enum by its name.
fn search_stage(alloc: Global, state: &State, text: &[u8]) -> Result<Stage, NoMemory>
    ensures { IfOk result (λ stage. stage
        ≡ search_stage state.now (enum_type_name text.now) (enum_assembly text.now)) }
{
    let wanted = enum_type_name(alloc, text)?;
    match enum_assembly(alloc, text)? {
        Some(name) => Ok(Stage::NamedType(TypeStage::Assembly {
            left: state.modules,
            name,
            wanted,
            forwards: false,
        })),
        None => Ok(Stage::EnumType(EnumStage::Here(wanted))),
    }
}

/// The enum is looked for by its name.
fn looked_by_name(alloc: Global, state: &State, reading: Reading) -> Result<Advance, NoMemory>
    ensures { IfOk result (λ advance. advance ≡ looked_by state.now reading None) }
{
    let waiting = nested_waiting(alloc, reading.wanted.as_slice())?;
    let stage = search_stage(alloc, state, reading.wanted.as_slice())?;
    Ok(Advance::Reads {
        reading,
        waiting,
        stage,
    })
}

/// The enum is looked for.
fn looked_for(alloc: Global, state: &State, reading: Reading) -> Result<Advance, NoMemory>
    ensures { IfOk result (λ advance. advance ≡ looked_for state.now reading) }
{
    let wanted = reading.wanted.as_slice();
    match value_token(reading.asked.as_slice(), reading.names.as_slice(), wanted) {
        Some(token) => Ok(Advance::Reads {
            reading,
            waiting: List::new(alloc),
            stage: enum_stage(state.home, token),
        }),
        None => looked_by_name(alloc, state, reading),
    }
}

/// The blob by the widths that are known.
#[tactic(auto, unfolding(crate::specs::Attributes::read_on))]
pub(crate) fn read_on(alloc: Global, state: &State, reading: Reading) -> Result<Advance, NoMemory>
    ensures { IfOk result (λ advance. advance ≡ read_on state.now reading) }
{
    let read = decode_attr(
        alloc,
        &reading.types,
        &reading.widths,
        reading.blob.as_slice(),
    )?;
    match read {
        AttrRead::Value(value) => Ok(ended(End::Attribute(value))),
        AttrRead::Unknown(name) => {
            let mut reading = reading;
            reading.wanted = name;
            looked_for(alloc, state, reading)
        }
        AttrRead::Bad => Ok(bad_attribute()),
    }
}

/// An empty blob.
fn without_arguments(alloc: Global, params: &[Parameter]) -> Advance
    ensures { result ≡ without_arguments params.now }
{
    match params {
        [] => ended(End::Attribute(AttrValue {
            fixed: List::new(alloc),
            named: List::new(alloc),
        })),
        _ => bad_attribute(),
    }
}

fn read_blob(alloc: Global, state: &State, reading: Reading) -> Result<Advance, NoMemory>
    ensures { IfOk result (λ advance. advance ≡ read_blob state.now reading) }
{
    if reading.blob.len() == 0 {
        return Ok(without_arguments(alloc, reading.params.as_slice()));
    }
    read_on(alloc, state, reading)
}

/// All names are known.
#[tactic(auto, unfolding(crate::specs::Attributes::after_names))]
pub(crate) fn after_names(
    alloc: Global,
    state: &State,
    reading: Reading,
) -> Result<Advance, NoMemory>
    ensures { IfOk result (λ advance. advance ≡ after_names state.now reading) }
{
    let types = types_of(alloc, reading.params.as_slice(), reading.names.as_slice())?;
    match types {
        Some(types) => {
            let mut reading = reading;
            reading.types = types;
            read_blob(alloc, state, reading)
        }
        None => Ok(bad_attribute()),
    }
}
