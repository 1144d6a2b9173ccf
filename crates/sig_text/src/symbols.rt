ghost use Rattle.std.specs.Prelude.{◌≡◌, ◌++◌, ◌∷◌, [], map, length, OnOk, IfOk, if◌then◌else◌};
ghost use Rattle.sig_tree.specs.declared.symbol.Symbol.TheVariants.{Byte, Number, Signed, TypeToken};
ghost use Rattle.sig_tree.specs.Spelling.{symbols, type_symbols, method_symbols, all_symbols, arity_symbols};
ghost use Rattle.sig_tree.specs.Spelling.{with_sentinel, sentinel_at, in_order, counted, generic_flag, flag};
ghost use Rattle.sig_tree.specs.Spelling.{convention_byte};

use cil_base::{List, NoMemory, Token};
use sig_tree::{Arity, MethodSig, Sentinel, SigTree, Symbol, TypeSig, element_type as el};
use std::alloc::Global;

/// The symbols of a signature in order.
pub(crate) fn sig_symbols(alloc: Global, sig: &SigTree) -> Result<List<Symbol>, NoMemory>
    ensures { IfOk result (λ all. all ≡ symbols sig.now) }
{
    let mut out = List::new(alloc);
    add_sig(sig, &mut out)?;
    Ok(out)
}

/// Adds the symbols of a signature.
fn add_sig(sig: &SigTree, out: &mut List<Symbol>) -> Result<(), NoMemory>
    ensures { OnOk result (out.new ≡ out.old ++ symbols sig.now) }
{
    match sig {
        SigTree::Method(method) => add_method(method, out),
        SigTree::Field(ty) => add_marked(el::FIELD, ty, out),
        SigTree::Locals(types) => add_list(el::LOCAL_SIG, types.as_slice(), out),
        SigTree::Property { this, ty, params } => {
            let head = if *this {
                el::PROPERTY_OF_INSTANCE
            } else {
                el::PROPERTY
            };
            out.push(Symbol::Byte(head))?;
            out.push(Symbol::Number(params.len()))?;
            add_type(ty, out)?;
            add_types(params.as_slice(), out)
        }
        SigTree::Inst(args) => add_list(el::METHOD_ARGUMENTS, args.as_slice(), out),
        SigTree::Plain(ty) => add_type(ty, out),
    }
}

/// Adds a byte, a count and types.
fn add_list(head: u8, types: &[TypeSig], out: &mut List<Symbol>) -> Result<(), NoMemory>
    ensures { OnOk result (out.new ≡ out.old ++ Byte head ∷ Number (length types.now) ∷ all_symbols types.now) }
{
    out.push(Symbol::Byte(head))?;
    out.push(Symbol::Number(types.len()))?;
    add_types(types, out)
}

/// Adds the symbols of a type.
#[cycle(symbols)]
fn add_type(ty: &TypeSig, out: &mut List<Symbol>) -> Result<(), NoMemory>
    ensures { OnOk result (out.new ≡ out.old ++ type_symbols ty.now) }
{
    match ty {
        TypeSig::Prim(code) => out.push(Symbol::Byte(*code)),
        TypeSig::Ptr(ty) => add_marked(el::PTR, ty.get(), out),
        TypeSig::ByRef(ty) => add_marked(el::BYREF, ty.get(), out),
        TypeSig::SzArray(ty) => add_marked(el::SZARRAY, ty.get(), out),
        TypeSig::Pinned(ty) => add_marked(el::PINNED, ty.get(), out),
        TypeSig::Value(of) => add_token(el::VALUETYPE, of, out),
        TypeSig::Class(of) => add_token(el::CLASS, of, out),
        TypeSig::Var(number) => add_param_number(el::VAR, *number, out),
        TypeSig::MVar(number) => add_param_number(el::MVAR, *number, out),
        TypeSig::Array {
            elem,
            rank,
            sizes,
            lows,
        } => {
            add_marked(el::ARRAY, elem.get(), out)?;
            add_shape(*rank, sizes.as_slice(), lows.as_slice(), out)
        }
        TypeSig::Inst { value, of, args } => add_inst(*value, of, args.as_slice(), out),
        TypeSig::FnPtr(method) => {
            out.push(Symbol::Byte(el::FNPTR))?;
            add_method(method.get(), out)
        }
        TypeSig::Mod {
            required,
            of,
            inner,
        } => add_mod(*required, of, inner.get(), out),
    }
}

/// Adds a modifier and the type after it.
#[cycle(symbols)]
fn add_mod(
    required: bool,
    of: &Token,
    inner: &TypeSig,
    out: &mut List<Symbol>,
) -> Result<(), NoMemory>
    ensures { OnOk result (out.new ≡ out.old
        ++ Byte (if required then 0x1f else 0x20) ∷ TypeToken of.now ∷ type_symbols inner.now) }
{
    let head = if required {
        el::CMOD_REQD
    } else {
        el::CMOD_OPT
    };
    add_token(head, of, out)?;
    add_type(inner, out)
}

/// Adds a byte and the type after it.
#[cycle(symbols)]
fn add_marked(head: u8, ty: &TypeSig, out: &mut List<Symbol>) -> Result<(), NoMemory>
    ensures { OnOk result (out.new ≡ out.old ++ Byte head ∷ type_symbols ty.now) }
{
    out.push(Symbol::Byte(head))?;
    add_type(ty, out)
}

/// Adds a generic type with its arguments.
#[cycle(symbols)]
fn add_inst(
    value: bool,
    of: &Token,
    args: &[TypeSig],
    out: &mut List<Symbol>,
) -> Result<(), NoMemory>
    ensures { OnOk result (out.new ≡ out.old ++ Byte 0x15 ∷ Byte (if value then 0x11 else 0x12)
        ∷ TypeToken of.now ∷ Number (length args.now) ∷ all_symbols args.now) }
{
    out.push(Symbol::Byte(el::GENERICINST))?;
    add_token(if value { el::VALUETYPE } else { el::CLASS }, of, out)?;
    out.push(Symbol::Number(args.len()))?;
    add_types(args, out)
}

/// Adds the symbols of a method's signature.
#[cycle(symbols)]
#[tactic(auto, using(sig_tree::proofs::Rows::method_row))]
fn add_method(method: &MethodSig, out: &mut List<Symbol>) -> Result<(), NoMemory>
    ensures { OnOk result (out.new ≡ out.old ++ method_symbols method.now) }
{
    out.push(Symbol::Byte(convention(method.kind, method.arity, method.this, method.explicit)))?;
    add_arity(method.arity, out)?;
    out.push(Symbol::Number(method.params.len()))?;
    add_type(&method.ret, out)?;
    add_params(method.params.as_slice(), method.sentinel, out)
}

/// Adds the symbols of types in order.
#[cycle(symbols)]
fn add_types(types: &[TypeSig], out: &mut List<Symbol>) -> Result<(), NoMemory>
    ensures { OnOk result (out.new ≡ out.old ++ all_symbols types.now) }
{
    for ty in types {
        add_type(ty, out)?;
    }
    Ok(())
}

/// Adds the symbols of parameters, with the sentinel where it stands.
#[cycle(symbols)]
fn add_params(
    params: &[TypeSig],
    sentinel: Sentinel,
    out: &mut List<Symbol>,
) -> Result<(), NoMemory>
    ensures { OnOk result (out.new ≡ out.old
        ++ in_order (with_sentinel sentinel (Byte 0x41 ∷ []) 0 (map type_symbols params.now))) }
{
    for (number, ty) in params.iter().enumerate() {
        add_sentinel(sentinel, number, out)?;
        add_type(ty, out)?;
    }
    add_sentinel(sentinel, params.len(), out)
}

/// Adds the sentinel, where it stands before that number.
fn add_sentinel(sentinel: Sentinel, number: usize, out: &mut List<Symbol>) -> Result<(), NoMemory>
    ensures { OnOk result (out.new ≡ out.old ++ in_order (sentinel_at sentinel number (Byte 0x41 ∷ []))) }
{
    match sentinel {
        Sentinel::Before(at) if at as usize == number => out.push(Symbol::Byte(el::SENTINEL)),
        _ => Ok(()),
    }
}

/// Adds the number of generic parameters, where there is one.
fn add_arity(arity: Arity, out: &mut List<Symbol>) -> Result<(), NoMemory>
    ensures { OnOk result (out.new ≡ out.old ++ arity_symbols arity) }
{
    match arity {
        Arity::Plain => Ok(()),
        Arity::Generic(number) => out.push(Symbol::Number(number as usize)),
    }
}

/// Adds a byte and a type token.
fn add_token(head: u8, of: &Token, out: &mut List<Symbol>) -> Result<(), NoMemory>
    ensures { OnOk result (out.new ≡ out.old ++ Byte head ∷ TypeToken of.now ∷ []) }
{
    out.push(Symbol::Byte(head))?;
    out.push(Symbol::TypeToken(*of))
}

/// Adds a byte and the number of a generic parameter.
fn add_param_number(head: u8, number: u32, out: &mut List<Symbol>) -> Result<(), NoMemory>
    ensures { OnOk result (out.new ≡ out.old ++ Byte head ∷ Number number ∷ []) }
{
    out.push(Symbol::Byte(head))?;
    out.push(Symbol::Number(number as usize))
}

/// Adds the rank of an array, its sizes and its lowest indices (ECMA-335 II.23.2.13).
fn add_shape(rank: u32, sizes: &[u32], lows: &[i32], out: &mut List<Symbol>) -> Result<(), NoMemory>
    ensures { OnOk result (out.new ≡ out.old
        ++ Number rank ∷ (counted (map Number sizes.now) ++ counted (map Signed lows.now))) }
{
    out.push(Symbol::Number(rank as usize))?;
    add_sizes(sizes, out)?;
    add_lows(lows, out)
}

/// Adds a count and as many sizes.
#[tactic(auto, using(sig_tree::proofs::Rows::map_length))]
fn add_sizes(sizes: &[u32], out: &mut List<Symbol>) -> Result<(), NoMemory>
    ensures { OnOk result (out.new ≡ out.old ++ counted (map Number sizes.now)) }
{
    out.push(Symbol::Number(sizes.len()))?;
    for size in sizes {
        out.push(Symbol::Number(*size as usize))?;
    }
    Ok(())
}

/// Adds a count and as many lowest indices.
#[tactic(auto, using(sig_tree::proofs::Rows::map_length))]
fn add_lows(lows: &[i32], out: &mut List<Symbol>) -> Result<(), NoMemory>
    ensures { OnOk result (out.new ≡ out.old ++ counted (map Signed lows.now)) }
{
    out.push(Symbol::Number(lows.len()))?;
    for low in lows {
        out.push(Symbol::Signed(*low))?;
    }
    Ok(())
}

/// The first byte of a method's signature.
fn convention(kind: u8, arity: Arity, this: bool, explicit: bool) -> u8
    ensures { result ≡ convention_byte kind arity this explicit }
{
    let generic = match arity {
        Arity::Plain => 0,
        Arity::Generic(_) => el::GENERIC,
    };
    let this = if this { el::HASTHIS } else { 0 };
    let explicit = if explicit { el::EXPLICITTHIS } else { 0 };
    kind % 0x10 + generic + this + explicit
}
