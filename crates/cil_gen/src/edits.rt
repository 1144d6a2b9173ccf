//! The edits, type by type.

ghost use Rattle.std.specs.Prelude.{◌≡◌, ◌∷◌, ◌++◌, ◌<◌, ◌≤◌, IfOk, OnOk, []};
ghost use Rattle.cil_gen.specs.GenEdits.{body_step, edits_of, field_step, gen_edits, gen_method, gen_type, method_step};
ghost use Rattle.cil_gen.specs.GenEdits.{method_steps, type_step, type_steps};

use crate::values::{field_cells, field_sig, method_cells, method_sig, returning, type_cells};
use cil_base::{List, NoMemory, Token};
use md_schema::table::{FIELD, METHOD_DEF, TYPE_DEF};
use node_model::{Edit, OptSig};
use std::alloc::Global;

/// How many methods each type has.
const METHODS: u32 = 3;

/// The row of the type of a number, counted from 0.
fn type_token(number: u32) -> Token
    requires { number < 10000 }
    ensures { result ≡ gen_type number }
{
    Token {
        table: TYPE_DEF,
        rid: number + 2,
    }
}

/// The row of a method of the type of a number.
fn method_token(number: u32, place: u32) -> Token
    requires number { number < 10000 }
    requires place { place < 3 }
    ensures { result ≡ gen_method number place }
{
    Token {
        table: METHOD_DEF,
        rid: METHODS * number + place + 1,
    }
}

/// Adds the edit that makes the type of a number.
fn push_type(alloc: Global, edits: &mut List<Edit>, number: u32) -> Result<(), NoMemory>
    ensures { OnOk result (edits.new ≡ edits.old ++ (type_step number).edit ∷ []) }
{
    let cells = type_cells(alloc, number)?;
    edits.push(Edit::Add {
        table: TYPE_DEF,
        cells,
        sig: OptSig::None,
    })
}

/// Adds the edit that makes its field.
fn push_field(alloc: Global, edits: &mut List<Edit>, number: u32) -> Result<(), NoMemory>
    requires { number < 10000 }
    ensures { OnOk result (edits.new ≡ edits.old ++ (field_step number).edit ∷ []) }
{
    let cells = field_cells(alloc)?;
    edits.push(Edit::Insert {
        owner: type_token(number),
        table: FIELD,
        at: 0,
        cells,
        sig: OptSig::Is(field_sig()),
    })
}

/// Adds the edit that makes one of its methods.
fn push_method(
    alloc: Global,
    edits: &mut List<Edit>,
    number: u32,
    place: u32,
) -> Result<(), NoMemory>
    requires { number < 10000 }
    ensures { OnOk result (edits.new ≡ edits.old ++ (method_step number place).edit ∷ []) }
{
    let cells = method_cells(alloc, place)?;
    edits.push(Edit::Insert {
        owner: type_token(number),
        table: METHOD_DEF,
        at: place,
        cells,
        sig: OptSig::Is(method_sig(alloc)),
    })
}

/// Adds the edit that gives one of its methods its body.
fn push_body(alloc: Global, edits: &mut List<Edit>, number: u32, place: u32) -> Result<(), NoMemory>
    requires number { number < 10000 }
    requires place { place < 3 }
    ensures { OnOk result (edits.new ≡ edits.old ++ (body_step number place).edit ∷ []) }
{
    let body = returning(alloc, METHODS * number + place)?;
    edits.push(Edit::SetBody {
        token: method_token(number, place),
        body,
    })
}

/// Adds the edits that make its methods.
#[tactic(auto, using(crate::proofs::ListLemmas::method_more))]
fn push_methods(alloc: Global, edits: &mut List<Edit>, number: u32) -> Result<(), NoMemory>
    requires { number < 10000 }
    ensures { OnOk result (edits.new ≡ edits.old ++ edits_of (method_steps number 3)) }
{
    for place in 0..METHODS {
        push_method(alloc, edits, number, place)?;
        push_body(alloc, edits, number, place)?;
    }
    Ok(())
}

/// Adds the edits of one type.
fn push_type_edits(alloc: Global, edits: &mut List<Edit>, number: u32) -> Result<(), NoMemory>
    requires { number < 10000 }
    ensures { OnOk result (edits.new ≡ edits.old ++ edits_of (type_steps number)) }
{
    push_type(alloc, edits, number)?;
    push_field(alloc, edits, number)?;
    push_methods(alloc, edits, number)
}

/// The edits that make `n` types of the small image, 1 to 10,000: each with a field, and with three methods that return
/// their numbers among all methods (ECMA-335 II.22.37, II.22.15, II.22.26).
#[tactic(auto, using(crate::proofs::ListLemmas::type_more, crate::proofs::ListLemmas::none_yet))]
pub fn gen_edits(alloc: Global, n: u32) -> Result<List<Edit>, NoMemory>
    requires some { 1 ≤ n }
    requires few { n ≤ 10000 }
    ensures { IfOk result (λ edits. edits ≡ gen_edits n) }
{
    let mut edits = List::new(alloc);
    for number in 0..n {
        push_type_edits(alloc, &mut edits, number)?;
    }
    Ok(edits)
}
