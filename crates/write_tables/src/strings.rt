//! The user strings of methods, and the tokens that load them (ECMA-335 II.24.2.4, III.4.16).

ghost use Rattle.std.specs.Prelude.{◌≡◌, ℕ, List, [], ◌∷◌, map, IfOk};
ghost use Rattle.std.specs.Option.{option_copied};
ghost use Rattle.node_model.specs.declared.key.Key.TheVariants.{Body};
ghost use Rattle.write_plan.specs.Planned.{kept_value};
ghost use Rattle.write_tables.specs.Contents.{AsUser, user_contents};
ghost use Rattle.write_tables.specs.UserStrings.{body_code, code_strings, method_strings, operand_units, units_in};
ghost use Rattle.write_tables.specs.UserTokens.{string_token};
ghost use Rattle.write_tables.specs.inner.Gathered.{Gathers};

use crate::heap::put_string;
use cil_base::{List, NoMemory, Token};
use il_code::{Instr, Operand};
use md_heaps::HeapBuilder;
use md_schema::table;
use node_model::{BodyValue, Key, Value};
use std::alloc::Global;
use write_plan::Plan;

/// Puts a user string in. The token that loads it, alone.
fn put_one(alloc: Global, heaps: &mut HeapBuilder, units: &[u16]) -> Result<List<u32>, NoMemory>
    ensures { IfOk result (Gathers (List ℕ) heaps.old heaps.new (AsUser units.now ∷ [])
        (λ later. string_token later.users units.now ∷ [])) }
{
    let token = put_string(heaps, units)?;
    let mut tokens = List::new(alloc);
    tokens.push(token)?;
    Ok(tokens)
}

/// The UTF-16 units of an operand, if it is a text.
fn units_in(operand: &Operand) -> Option<&List<u16>>
    ensures { option_copied result ≡ units_in operand.now }
{
    match operand {
        Operand::Text(units) => Some(units),
        _ => None,
    }
}

/// Puts an operand in, if it is a user string. The token that loads it.
fn put_operand(
    alloc: Global,
    heaps: &mut HeapBuilder,
    operand: &Operand,
) -> Result<List<u32>, NoMemory>
    ensures { IfOk result (Gathers (List ℕ) heaps.old heaps.new (map AsUser (operand_units operand.now))
        (λ later. map (string_token later.users) (operand_units operand.now))) }
{
    match units_in(operand) {
        Some(units) => put_one(alloc, heaps, units.as_slice()),
        None => Ok(List::new(alloc)),
    }
}

/// Puts the user strings of instructions in. The tokens that load them, in order.
fn put_code(alloc: Global, heaps: &mut HeapBuilder, code: &[Instr]) -> Result<List<u32>, NoMemory>
    ensures { IfOk result (Gathers (List ℕ) heaps.old heaps.new (map AsUser (code_strings code.now))
        (λ later. map (string_token later.users) (code_strings code.now))) }
{
    let mut tokens = List::new(alloc);
    for instr in code {
        let more = put_operand(alloc, heaps, &instr.operand)?;
        tokens.extend(more.as_slice())?;
    }
    Ok(tokens)
}

/// The instructions of a body.
fn body_code<'a>(value: Option<&'a Value>) -> &'a [Instr]
    ensures { result.now ≡ body_code (option_copied value.entry) }
{
    match value {
        Some(Value::Body(BodyValue::Il(body))) => body.code.as_slice(),
        _ => &[],
    }
}

/// Puts the user strings of a method in. The tokens that load them, in order.
fn put_method(
    alloc: Global,
    plan: &Plan,
    heaps: &mut HeapBuilder,
    method: Token,
) -> Result<List<u32>, NoMemory>
    ensures { let strings = code_strings (body_code (kept_value plan.now.entries (Body method))) in
        IfOk result (Gathers (List ℕ) heaps.old heaps.new (map AsUser strings)
        (λ later. map (string_token later.users) strings)) }
{
    let body = plan.value(&Key::Body(method));
    put_code(alloc, heaps, body_code(body))
}

/// Puts the user strings of all methods in. For each MethodDef row the tokens that load them, in order.
pub(crate) fn put_strings(
    alloc: Global,
    plan: &Plan,
    heaps: &mut HeapBuilder,
) -> Result<List<List<u32>>, NoMemory>
    ensures { IfOk result (Gathers (List (List ℕ)) heaps.old heaps.new (user_contents plan.now)
        (λ later. map (λ strings. map (string_token later.users) strings) (method_strings plan.now))) }
{
    let mut all = List::new(alloc);
    let rows = plan.kept(table::METHOD_DEF);
    let methods = rows.as_slice();
    for method in methods {
        let tokens = put_method(alloc, plan, heaps, *method)?;
        all.push(tokens)?;
    }
    Ok(all)
}
