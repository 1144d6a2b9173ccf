//! Numbers of instructions in place of the places that targets have in the bytes (ECMA-335 III.1.7.2).

ghost use Rattle.std.specs.Prelude.{◌≡◌};
ghost use Rattle.il_code.specs.Numbering.{each, numbered_instr, numbered_operand, target_in};

use cil_base::List;
use il_code::{Instr, Operand, Places, number_of};

/// The number of the instruction at a place.
#[tactic(auto, unfolding(il_code::specs::Numbering::target_in))]
pub(crate) fn target_of(places: &Places, place: u64) -> Option<u32>
    ensures { result ≡ target_in places.now.starts places.now.count place }
{
    let number = number_of(places, place)?;
    if (number as usize) < places.count() {
        Some(number)
    } else {
        None
    }
}

/// Puts numbers in place of the places of a switch's targets. Whether each of them has one.
fn number_targets(places: &Places, targets: List<u32>) -> Option<List<u32>>
    ensures { result ≡ each (target_in places.now.starts places.now.count) targets }
{
    let mut targets = targets;
    for i in 0..targets.len() {
        let place = targets.set(i, 0);
        let Some(number) = target_of(places, place as u64) else {
            return None;
        };
        targets.set(i, number);
    }
    Some(targets)
}

/// The operand with numbers in place of places. None where no instruction stands at one of them.
#[tactic(auto, unfolding(il_code::specs::Numbering::numbered_operand))]
fn number_operand(places: &Places, operand: Operand) -> Option<Operand>
    ensures { result ≡ numbered_operand places.now.starts places.now.count operand }
{
    match operand {
        Operand::Target(place) => {
            let target = target_of(places, place as u64)?;
            Some(Operand::Target(target))
        }
        Operand::Switch(targets) => {
            let targets = number_targets(places, targets)?;
            Some(Operand::Switch(targets))
        }
        other => Some(other),
    }
}

/// The instruction with numbers in place of places.
#[tactic(auto, unfolding(il_code::specs::Numbering::numbered_instr))]
fn number_instr(places: &Places, instr: Instr) -> Option<Instr>
    ensures { result ≡ numbered_instr places.now.starts places.now.count instr }
{
    let Instr { op, operand } = instr;
    let operand = number_operand(places, operand)?;
    Some(Instr { op, operand })
}

/// The instructions with numbers in place of places.
pub(crate) fn number_code(places: &Places, code: List<Instr>) -> Option<List<Instr>>
    ensures { result ≡ each (numbered_instr places.now.starts places.now.count) code }
{
    let mut code = code;
    for i in 0..code.len() {
        // something has to stand there while the instruction is changed
        let empty = Instr {
            op: 0,
            operand: Operand::None,
        };
        let instr = code.set(i, empty);
        let Some(numbered) = number_instr(places, instr) else {
            return None;
        };
        code.set(i, numbered);
    }
    Some(code)
}
