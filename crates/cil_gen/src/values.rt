//! What the new rows hold: names, cells, signatures and bodies.

ghost use Rattle.std.specs.Prelude.{◌≡◌, ◌∷◌, ◌<◌, ◌^◌, IfOk};
ghost use Rattle.std.specs.Fmt.{decimal};
ghost use Rattle.cil_gen.specs.GenEdits.{field_cells, field_sig, method_cells, method_sig, returning, returning_code, type_cells};

use cil_base::{Bytes, List, NoMemory, Token};
use il_code::{Body, Instr, Operand};
use itoa::Buffer;
use node_model::{BodyValue, Cell};
use sig_tree::{Arity, MethodSig, Sentinel, Sig, SigTree, TypeSig};
use std::alloc::Global;

/// The element type of a 32-bit integer (ECMA-335 II.23.1.16).
const ELEMENT_TYPE_I4: u8 = 0x08;

/// The codes of two instructions (ECMA-335 III, VI.C.2).
const LDC_I4: u16 = 0x20;

const RET: u16 = 0x2a;

/// The attributes of a type that is public and may be initialized before its first use, and those of a public and static
/// member (ECMA-335 II.23.1.15, II.23.1.5, II.23.1.10).
const PUBLIC_TYPE: u64 = 0x10_0001;

const PUBLIC_STATIC: u64 = 0x16;

/// How many values the evaluation stack of a method with a tiny header may hold (ECMA-335 II.25.4.2).
const TINY_STACK: u16 = 8;

/// A letter and a number behind it, in decimal.
fn numbered(alloc: Global, letter: u8, number: u32) -> Result<Bytes, NoMemory>
    ensures { IfOk result (λ name. name ≡ letter ∷ decimal number) }
{
    let mut name = List::new(alloc);
    name.push(letter)?;
    let mut buffer = Buffer::new();
    name.extend(buffer.format(number).as_bytes())?;
    Ok(name)
}

/// The cells of the type of a number.
pub(crate) fn type_cells(alloc: Global, number: u32) -> Result<List<Cell>, NoMemory>
    ensures { IfOk result (λ cells. cells ≡ type_cells number) }
{
    let mut cells = List::new(alloc);
    cells.push(Cell::Num(PUBLIC_TYPE))?;
    cells.push(Cell::Text(numbered(alloc, b'T', number)?))?;
    cells.push(Cell::Text(List::from_slice(alloc, b"G")?))?;
    cells.push(Cell::NoRef)?;
    Ok(cells)
}

/// The cells of a field.
pub(crate) fn field_cells(alloc: Global) -> Result<List<Cell>, NoMemory>
    ensures { IfOk result (λ cells. cells ≡ field_cells) }
{
    let mut cells = List::new(alloc);
    cells.push(Cell::Num(PUBLIC_STATIC))?;
    cells.push(Cell::Text(List::from_slice(alloc, b"f")?))?;
    Ok(cells)
}

/// The cells of the method of a number among those of its type.
pub(crate) fn method_cells(alloc: Global, number: u32) -> Result<List<Cell>, NoMemory>
    ensures { IfOk result (λ cells. cells ≡ method_cells number) }
{
    let mut cells = List::new(alloc);
    cells.push(Cell::Num(0))?;
    cells.push(Cell::Num(PUBLIC_STATIC))?;
    cells.push(Cell::Text(numbered(alloc, b'm', number)?))?;
    Ok(cells)
}

/// The signature of a field that is a 32-bit integer.
#[tactic(auto, using(crate::proofs::SigLemmas::field_is_bounded))]
pub(crate) fn field_sig() -> Sig
    ensures { result ≡ field_sig }
{
    Sig::of_bounded(SigTree::Field(TypeSig::Prim(ELEMENT_TYPE_I4)))
}

/// The signature of a method that takes nothing and returns a 32-bit integer.
#[tactic(auto, using(crate::proofs::SigLemmas::method_is_bounded))]
pub(crate) fn method_sig(alloc: Global) -> Sig
    ensures { result ≡ method_sig }
{
    Sig::of_bounded(SigTree::Method(MethodSig {
        kind: 0,
        this: false,
        explicit: false,
        arity: Arity::Plain,
        ret: TypeSig::Prim(ELEMENT_TYPE_I4),
        params: List::new(alloc),
        sentinel: Sentinel::None,
    }))
}

/// The instructions that return a number.
fn code_returning(alloc: Global, number: u32) -> Result<List<Instr>, NoMemory>
    requires { number < 2 ^ 31 }
    ensures { IfOk result (λ code. code ≡ returning_code number) }
{
    let mut code = List::new(alloc);
    code.push(Instr {
        op: LDC_I4,
        operand: Operand::I32(number as i32),
    })?;
    code.push(Instr {
        op: RET,
        operand: Operand::None,
    })?;
    Ok(code)
}

/// The body that returns a number.
pub(crate) fn returning(alloc: Global, number: u32) -> Result<BodyValue, NoMemory>
    requires { number < 2 ^ 31 }
    ensures { IfOk result (λ body. body ≡ returning number) }
{
    let code = code_returning(alloc, number)?;
    Ok(BodyValue::Il(Body {
        max_stack: TINY_STACK,
        init_locals: false,
        locals: Token::ROOT,
        code,
        handlers: List::new(alloc),
    }))
}
