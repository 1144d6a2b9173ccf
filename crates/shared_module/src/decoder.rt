//! What decodes the keys that callers need, between their turns.
ghost use Rattle.std.specs.Prelude.{◌≡◌, IfOk, true};
ghost use Rattle.node_model.specs.Immediate.{read};
ghost use Rattle.node_model.specs.Keys.{is_key};

use cil_base::NoMemory;
use cil_outside::{Gate, GatePoint, HoldGate, OpenGate};
use node_model::{By, Key, Slot};
use node_read::{Image, read_key};
use std::alloc::Global;

/// A gate that decodes.
pub trait Decoder: Gate {
    /// What a key of the image holds in the file, for a command of an actor: what `read_key` gives. It may wait for
    /// another actor.
    fn slot(
        &self,
        alloc: Global,
        actor: u32,
        command: u32,
        image: &Image,
        key: &Key,
    ) -> Result<Slot, NoMemory>
        requires { is_key image.now key.now ≡ true }
        ensures { IfOk result (λ slot. slot ≡ read image.now key.now) };
}

/// Decodes a key, and then tells the gate that the command needs it.
fn decode<G: Gate>(
    gate: &G,
    alloc: Global,
    actor: u32,
    command: u32,
    image: &Image,
    key: &Key,
) -> Result<Slot, NoMemory>
    requires { is_key image.now key.now ≡ true }
    ensures { IfOk result (λ slot. slot ≡ read image.now key.now) }
{
    let slot = read_key(alloc, image, key)?;
    gate.at(actor, command, GatePoint::Wanted);
    Ok(slot)
}

/// Tells the gate that a command was answered, where it was.
pub(crate) fn tell_answered<G: Gate>(gate: &G, by: By, was_answered: bool) {
    if was_answered {
        gate.at(by.caller, by.command, GatePoint::Answered);
    }
}

impl Decoder for OpenGate {
    fn slot(
        &self,
        alloc: Global,
        actor: u32,
        command: u32,
        image: &Image,
        key: &Key,
    ) -> Result<Slot, NoMemory> {
        decode(self, alloc, actor, command, image, key)
    }
}

impl Decoder for HoldGate {
    fn slot(
        &self,
        alloc: Global,
        actor: u32,
        command: u32,
        image: &Image,
        key: &Key,
    ) -> Result<Slot, NoMemory> {
        decode(self, alloc, actor, command, image, key)
    }
}
