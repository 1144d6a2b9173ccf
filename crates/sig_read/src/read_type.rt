ghost use Rattle.std.specs.Prelude.{◌≡◌, ◌∷◌, [], true, false, drop, IfOk, MatchOption};
ghost use Rattle.sig_tree.specs.declared.tree.TypeSig.TheVariants.{FnPtr};
ghost use Rattle.sig_read.specs.inner.Found.{FindsFront, fronted};
ghost use Rattle.sig_tree.specs.Fronts.{many_at, counted_at, wrap};
ghost use Rattle.sig_read.specs.inner.Found.{FindsParams, marked};
ghost use Rattle.sig_tree.specs.Parsing.{type_sig_at, level_at, wrapped_at, array_at, inst_at, mod_at, method_at};
ghost use Rattle.sig_tree.specs.Parsing.{convention_at, params_at, is_convention};

use crate::read_leaf::{
    after_sentinel, first_byte, read_arity, read_class, read_kind, read_mvar, read_value, read_var,
};
use crate::read_number::{read_lows, read_number, read_numbers, read_type_token};
use cil_base::{Boxed, List, NoMemory};
use sig_tree::{MethodSig, Sentinel, TypeSig, element_type as el, is_kind, is_prim};
use std::alloc::Global;

/// What was read, and the bytes after it. None where the bytes don't begin with it.
pub(crate) type Found<'a, T> = Result<Option<(T, &'a [u8])>, NoMemory>;

/// The type at the front of the bytes, of at most that depth, and the bytes after it.
#[cycle(read)]
#[tactic(auto, using(crate::proofs::Fuel::type_at_step, crate::proofs::Fuel::type_at_empty, crate::proofs::Fuel::type_at_zero))]
pub(crate) fn read_type(alloc: Global, bytes: &[u8], depth: u32) -> Found<'_, TypeSig>
    ensures { IfOk result (λ found. FindsFront found (type_sig_at depth bytes.now)) }
{
    if depth == 0 {
        return Ok(None);
    }
    match first_byte(bytes) {
        Some((head, rest)) => read_level(alloc, head, rest, depth - 1),
        None => Ok(None),
    }
}

/// A type after its first byte, with parts of at most that depth.
#[cycle(read)]
#[tactic(auto, unfolding(sig_tree::specs::Parsing::level_at))]
fn read_level(alloc: Global, head: u8, rest: &[u8], depth: u32) -> Found<'_, TypeSig>
    ensures { IfOk result (λ found. FindsFront found (level_at (type_sig_at depth) head rest.now)) }
{
    if is_prim(head) {
        return Ok(Some((TypeSig::Prim(head), rest)));
    }
    match head {
        el::VALUETYPE => Ok(read_value(rest)),
        el::CLASS => Ok(read_class(rest)),
        el::VAR => Ok(read_var(rest)),
        el::MVAR => Ok(read_mvar(rest)),
        el::ARRAY => read_array(alloc, rest, depth),
        el::GENERICINST => read_inst(alloc, rest, depth),
        el::FNPTR => read_pointer(alloc, rest, depth),
        el::CMOD_REQD => read_mod(alloc, true, rest, depth),
        el::CMOD_OPT => read_mod(alloc, false, rest, depth),
        _ => read_wrapped(alloc, head, rest, depth),
    }
}

/// The same, moved to the heap.
#[cycle(read)]
fn read_boxed(alloc: Global, bytes: &[u8], depth: u32) -> Found<'_, Boxed<TypeSig>>
    ensures { IfOk result (λ found. FindsFront found (type_sig_at depth bytes.now)) }
{
    match read_type(alloc, bytes, depth)? {
        Some((ty, rest)) => Ok(Some((Boxed::new(alloc, ty)?, rest))),
        None => Ok(None),
    }
}

/// A type after its first byte, where that is followed by one type alone.
#[cycle(read)]
fn read_wrapped(alloc: Global, head: u8, rest: &[u8], depth: u32) -> Found<'_, TypeSig>
    ensures { IfOk result (λ found. FindsFront found (wrapped_at (type_sig_at depth) head rest.now)) }
{
    if !matches!(head, el::PTR | el::BYREF | el::SZARRAY | el::PINNED) {
        return Ok(None);
    }
    let Some((ty, rest)) = read_boxed(alloc, rest, depth)? else {
        return Ok(None);
    };
    match head {
        el::PTR => Ok(Some((TypeSig::Ptr(ty), rest))),
        el::BYREF => Ok(Some((TypeSig::ByRef(ty), rest))),
        el::SZARRAY => Ok(Some((TypeSig::SzArray(ty), rest))),
        _ => Ok(Some((TypeSig::Pinned(ty), rest))),
    }
}

/// An array after its first byte (ECMA-335 II.23.2.13).
#[cycle(read)]
fn read_array(alloc: Global, bytes: &[u8], depth: u32) -> Found<'_, TypeSig>
    ensures { IfOk result (λ found. FindsFront found (array_at (type_sig_at depth) bytes.now)) }
{
    let Some((elem, bytes)) = read_boxed(alloc, bytes, depth)? else {
        return Ok(None);
    };
    let Some((rank, bytes)) = read_number(bytes) else {
        return Ok(None);
    };
    let Some((sizes, bytes)) = read_numbers(alloc, bytes)? else {
        return Ok(None);
    };
    let Some((lows, bytes)) = read_lows(alloc, bytes)? else {
        return Ok(None);
    };
    Ok(Some((
        TypeSig::Array {
            elem,
            rank,
            sizes,
            lows,
        },
        bytes,
    )))
}

/// A generic type with its arguments, after its first byte.
#[cycle(read)]
fn read_inst(alloc: Global, bytes: &[u8], depth: u32) -> Found<'_, TypeSig>
    ensures { IfOk result (λ found. FindsFront found (inst_at (type_sig_at depth) bytes.now)) }
{
    let Some((value, bytes)) = read_kind(bytes) else {
        return Ok(None);
    };
    let Some((of, bytes)) = read_type_token(bytes) else {
        return Ok(None);
    };
    let Some((args, bytes)) = read_types(alloc, bytes, depth)? else {
        return Ok(None);
    };
    Ok(Some((TypeSig::Inst { value, of, args }, bytes)))
}

/// A modified type after the first byte of its modifier (ECMA-335 II.23.2.7).
#[cycle(read)]
fn read_mod(alloc: Global, required: bool, bytes: &[u8], depth: u32) -> Found<'_, TypeSig>
    ensures { IfOk result (λ found. FindsFront found (mod_at (type_sig_at depth) required bytes.now)) }
{
    let Some((of, bytes)) = read_type_token(bytes) else {
        return Ok(None);
    };
    let Some((inner, bytes)) = read_boxed(alloc, bytes, depth)? else {
        return Ok(None);
    };
    Ok(Some((
        TypeSig::Mod {
            required,
            of,
            inner,
        },
        bytes,
    )))
}

/// A function pointer, whose parameters are not followed by a sentinel.
#[cycle(read)]
fn read_pointer(alloc: Global, bytes: &[u8], depth: u32) -> Found<'_, TypeSig>
    ensures { IfOk result (λ found. FindsFront found (wrap FnPtr (method_at (type_sig_at depth) bytes.now))) }
{
    let Some((method, bytes)) = read_method(alloc, bytes, depth)? else {
        return Ok(None);
    };
    Ok(Some((TypeSig::FnPtr(Boxed::new(alloc, method)?), bytes)))
}

/// A method's signature, without a sentinel after its last parameter.
#[cycle(read)]
pub(crate) fn read_method(alloc: Global, bytes: &[u8], depth: u32) -> Found<'_, MethodSig>
    ensures { IfOk result (λ found. FindsFront found (method_at (type_sig_at depth) bytes.now)) }
{
    match bytes {
        [head, rest @ ..] => {
            if *head < 0x80 && is_kind(*head % 0x10) {
                read_convention(alloc, *head, rest, depth)
            } else {
                Ok(None)
            }
        }
        [] => Ok(None),
    }
}

/// A method's signature after its first byte.
#[cycle(read)]
fn read_convention(alloc: Global, head: u8, bytes: &[u8], depth: u32) -> Found<'_, MethodSig>
    ensures { IfOk result (λ found. FindsFront found (convention_at (type_sig_at depth) head bytes.now)) }
{
    let Some((arity, bytes)) = read_arity(head / el::GENERIC % 2 == 1, bytes) else {
        return Ok(None);
    };
    let Some((count, bytes)) = read_number(bytes) else {
        return Ok(None);
    };
    let Some((ret, bytes)) = read_type(alloc, bytes, depth)? else {
        return Ok(None);
    };
    let Some((params, sentinel, bytes)) = read_params(alloc, bytes, count, depth)? else {
        return Ok(None);
    };
    let method = MethodSig {
        kind: head % 0x10,
        this: head / el::HASTHIS % 2 == 1,
        explicit: head / el::EXPLICITTHIS % 2 == 1,
        arity,
        ret,
        params,
        sentinel,
    };
    Ok(Some((method, bytes)))
}

/// So many parameters, with a sentinel before at most one of them.
#[cycle(read)]
#[tactic(auto, using(crate::proofs::Fuel::params_more, crate::proofs::Fuel::params_none))]
fn read_params(
    alloc: Global,
    bytes: &[u8],
    count: u32,
    depth: u32,
) -> Result<Option<(List<TypeSig>, Sentinel, &[u8])>, NoMemory>
    ensures { IfOk result (λ found. FindsParams found (params_at (type_sig_at depth) 0 count bytes.now)) }
{
    let mut params = List::new(alloc);
    let mut rest = bytes;
    for number in 0..count {
        match after_sentinel(rest) {
            Some(after) => return read_marked(alloc, params, after, number, count - number, depth),
            None => match read_type(alloc, rest, depth)? {
                Some((ty, left)) => {
                    params.push(ty)?;
                    rest = left;
                }
                None => return Ok(None),
            },
        }
    }
    Ok(Some((params, Sentinel::None, rest)))
}

/// The parameters from a sentinel on, after those before it.
#[cycle(read)]
fn read_marked(
    alloc: Global,
    before: List<TypeSig>,
    bytes: &[u8],
    number: u32,
    count: u32,
    depth: u32,
) -> Result<Option<(List<TypeSig>, Sentinel, &[u8])>, NoMemory>
    ensures { IfOk result (λ found. FindsParams found (marked number
        (fronted before (many_at (type_sig_at depth) count bytes.now)))) }
{
    match read_more(alloc, before, bytes, count, depth)? {
        Some((params, rest)) => Ok(Some((params, Sentinel::Before(number), rest))),
        None => Ok(None),
    }
}

/// A count, and as many types.
#[cycle(read)]
pub(crate) fn read_types(alloc: Global, bytes: &[u8], depth: u32) -> Found<'_, List<TypeSig>>
    ensures { IfOk result (λ found. FindsFront found (counted_at (type_sig_at depth) bytes.now)) }
{
    match read_number(bytes) {
        Some((count, bytes)) => read_more(alloc, List::new(alloc), bytes, count, depth),
        None => Ok(None),
    }
}

/// So many types after those before them.
#[cycle(read)]
#[tactic(auto, using(crate::proofs::Fuel::fronted_more, crate::proofs::Fuel::fronted_none))]
pub(crate) fn read_more(
    alloc: Global,
    before: List<TypeSig>,
    bytes: &[u8],
    count: u32,
    depth: u32,
) -> Found<'_, List<TypeSig>>
    ensures { IfOk result (λ found. FindsFront found (fronted before (many_at (type_sig_at depth) count bytes.now))) }
{
    let mut types = before;
    let mut rest = bytes;
    for index in 0..count {
        match read_type(alloc, rest, depth)? {
            Some((ty, after)) => {
                types.push(ty)?;
                rest = after;
            }
            None => return Ok(None),
        }
    }
    Ok(Some((types, rest)))
}
