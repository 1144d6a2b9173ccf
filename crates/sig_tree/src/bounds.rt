ghost use Rattle.std.specs.Prelude.{◌≡◌, ◌&&◌, ◌∷◌, ◌++◌, map, length};
ghost use Rattle.std.specs.List.{list_all};
ghost use Rattle.sig_tree.specs.declared.symbol.Symbol.TheVariants.{Number, Signed};
ghost use Rattle.sig_tree.specs.Symbols.{can_be_spelled};
ghost use Rattle.sig_tree.specs.Spelling.{symbols, type_symbols, method_symbols, all_symbols, arity_symbols, counted};
ghost use Rattle.sig_tree.specs.Bounds.{sig_fits, type_fits, method_fits, all_fit, is_prim, is_kind, has_place};

use crate::element_type as el;
use crate::tree::{Arity, MethodSig, Sentinel, SigTree, TypeSig};
use crate::type_token::names_type;

/// The greatest depth of a signature.
pub const DEPTH_LIMIT: u32 = 64;

/// Whether a signature keeps its bounds: depth, codes and sentinels, numbers and type tokens.
#[tactic(auto, using(crate::proofs::Rows::list_all_append))]
pub(crate) fn sig_keeps(sig: &SigTree) -> bool
    ensures { result ≡ (sig_fits sig.now && list_all can_be_spelled (symbols sig.now)) }
{
    match sig {
        SigTree::Method(method) => method_keeps(method, false, DEPTH_LIMIT),
        SigTree::Field(ty) | SigTree::Plain(ty) => type_keeps(ty, DEPTH_LIMIT),
        SigTree::Locals(types) | SigTree::Inst(types) => list_keeps(types.as_slice(), DEPTH_LIMIT),
        SigTree::Property { ty, params, .. } => {
            type_keeps(ty, DEPTH_LIMIT) && list_keeps(params.as_slice(), DEPTH_LIMIT)
        }
    }
}

/// Whether a type has at most that depth, and keeps the bounds.
#[cycle(keeps)]
#[tactic(auto, using(crate::proofs::Rows::token_spelled, crate::proofs::Keeps::array_keeps, crate::proofs::Keeps::inst_keeps))]
fn type_keeps(ty: &TypeSig, depth: u32) -> bool
    ensures { result ≡ (type_fits ty.now depth && list_all can_be_spelled (type_symbols ty.now)) }
{
    if depth == 0 {
        return false;
    }
    let inner = depth - 1;
    match ty {
        TypeSig::Prim(code) => is_prim(*code),
        TypeSig::Value(of) | TypeSig::Class(of) => names_type(of),
        TypeSig::Var(number) | TypeSig::MVar(number) => is_number(*number as usize),
        TypeSig::Ptr(ty) | TypeSig::ByRef(ty) | TypeSig::SzArray(ty) | TypeSig::Pinned(ty) => {
            type_keeps(ty.get(), inner)
        }
        TypeSig::Array {
            elem,
            rank,
            sizes,
            lows,
        } => { type_keeps(elem.get(), inner) && is_shape(*rank, sizes.as_slice(), lows.as_slice()) }
        TypeSig::Inst { of, args, .. } => names_type(of) && list_keeps(args.as_slice(), inner),
        TypeSig::FnPtr(method) => method_keeps(method.get(), true, inner),
        TypeSig::Mod { of, inner: ty, .. } => names_type(of) && type_keeps(ty.get(), inner),
    }
}

/// Whether a method's types have at most that depth, and it keeps the bounds; `pointer` is true for a function pointer.
#[cycle(keeps)]
#[tactic(auto, using(crate::proofs::Keeps::method_keeps))]
fn method_keeps(method: &MethodSig, pointer: bool, depth: u32) -> bool
    ensures { result ≡ (method_fits method.now pointer depth && list_all can_be_spelled (method_symbols method.now)) }
{
    is_kind(method.kind)
        && has_place(pointer, method.params.len(), method.sentinel)
        && is_arity(method.arity)
        && type_keeps(&method.ret, depth)
        && list_keeps(method.params.as_slice(), depth)
}

/// Whether types have at most that depth and keep the bounds, and their number can be spelled.
#[cycle(keeps)]
#[tactic(auto, using(crate::proofs::Rows::list_all_append))]
fn list_keeps(types: &[TypeSig], depth: u32) -> bool
    ensures { result ≡ (can_be_spelled (Number (length types.now))
        && (all_fit types.now depth && list_all can_be_spelled (all_symbols types.now))) }
{
    if !is_number(types.len()) {
        return false;
    }
    for ty in types {
        if !type_keeps(ty, depth) {
            return false;
        }
    }
    true
}

/// Whether a byte is an element type of one byte (ECMA-335 II.23.1.16).
pub fn is_prim(code: u8) -> bool
    ensures { result ≡ is_prim code }
{
    matches!(
        code,
        el::VOID..=el::STRING | el::TYPEDBYREF | el::I | el::U | el::OBJECT
    )
}

/// Whether a number is a calling convention that is read: 0 to 5, or 9 (ECMA-335 II.23.2.1 to II.23.2.3).
pub fn is_kind(kind: u8) -> bool
    ensures { result ≡ is_kind kind }
{
    kind <= 5 || kind == 9
}

/// Whether a sentinel stands among the parameters, or after the last of a method that is no function pointer.
fn has_place(pointer: bool, params: usize, sentinel: Sentinel) -> bool
    ensures { result ≡ has_place pointer params sentinel }
{
    match sentinel {
        Sentinel::None => true,
        Sentinel::Before(number) => {
            if pointer {
                (number as usize) < params
            } else {
                number as usize <= params
            }
        }
    }
}

/// Whether a number can be spelled.
fn is_number(number: usize) -> bool
    ensures { result ≡ can_be_spelled (Number number) }
{
    number < 0x2000_0000
}

/// Whether a signed number can be spelled.
fn is_low(low: i32) -> bool
    ensures { result ≡ can_be_spelled (Signed low) }
{
    -0x1000_0000 <= low && low < 0x1000_0000
}

/// Whether the number of generic parameters can be spelled.
fn is_arity(arity: Arity) -> bool
    ensures { result ≡ list_all can_be_spelled (arity_symbols arity) }
{
    match arity {
        Arity::Plain => true,
        Arity::Generic(number) => is_number(number as usize),
    }
}

/// Whether the rank, the sizes and the lowest indices of an array can be spelled.
#[tactic(auto, using(crate::proofs::Rows::list_all_append))]
fn is_shape(rank: u32, sizes: &[u32], lows: &[i32]) -> bool
    ensures { result ≡ list_all can_be_spelled (Number rank ∷ (counted (map Number sizes.now) ++ counted (map Signed lows.now))) }
{
    is_number(rank as usize) && are_sizes(sizes) && are_lows(lows)
}

/// Whether sizes and their number can be spelled.
#[tactic(auto, using(crate::proofs::Rows::map_length))]
fn are_sizes(sizes: &[u32]) -> bool
    ensures { result ≡ list_all can_be_spelled (counted (map Number sizes.now)) }
{
    if !is_number(sizes.len()) {
        return false;
    }
    for size in sizes {
        if !is_number(*size as usize) {
            return false;
        }
    }
    true
}

/// Whether lowest indices and their number can be spelled.
#[tactic(auto, using(crate::proofs::Rows::map_length))]
fn are_lows(lows: &[i32]) -> bool
    ensures { result ≡ list_all can_be_spelled (counted (map Signed lows.now)) }
{
    if !is_number(lows.len()) {
        return false;
    }
    for low in lows {
        if !is_low(*low) {
            return false;
        }
    }
    true
}
