ghost use Rattle.std.specs.Prelude.{◌≡◌, length, drop, IfOk, IsTrue};
ghost use Rattle.std.specs.List.{list_all};
ghost use Rattle.sig_tree.specs.Printed.{tokens as own_tokens};
ghost use Rattle.sig_tree.specs.inner.Placed.{Placed};
ghost use Rattle.sig_tree.specs.Replaced.{next, type_with, method_with, types_with, inst_with, mod_with};
ghost use Rattle.sig_tree.specs.Replaced.{pointer_with, replaced, names_type};
ghost use Rattle.sig_tree.specs.declared.tree.TypeSig.TheVariants.{Array};

use crate::sig::Sig;
use crate::tree::{MethodSig, SigTree, TypeSig};
use cil_base::{Boxed, List, NoMemory, Token};
use std::alloc::Global;

/// What was placed, and the tokens that are left.
pub(crate) type Put<'a, T> = Result<(T, &'a [Token]), NoMemory>;

/// The signature with the i-th of the tokens in the place of the i-th of its own, as `sig_tokens` gives them. Asks for
/// as many tokens as it has, each of TypeDef, TypeRef or TypeSpec.
pub fn with_tokens(alloc: Global, sig: &Sig, tokens: &List<Token>) -> Result<Sig, NoMemory>
    requires count { length tokens.now ≡ length (own_tokens sig.now) }
    requires types { IsTrue (list_all names_type tokens.now) }
    ensures { IfOk result (λ new. new ≡ replaced sig.now tokens.now) }
{
    let tree = place_sig(alloc, sig.tree(), tokens.as_slice())?;
    Ok(Sig::of_bounded(tree))
}

/// A signature with the tokens in the places of its own, as far as they go.
pub(crate) fn place_sig(alloc: Global, sig: &SigTree, tokens: &[Token]) -> Result<SigTree, NoMemory>
    ensures { IfOk result (λ new. new ≡ replaced sig.now tokens.now) }
{
    match sig {
        SigTree::Method(method) => {
            let (method, _) = place_method(alloc, method, tokens)?;
            Ok(SigTree::Method(method))
        }
        SigTree::Field(ty) => {
            let (ty, _) = place_type(alloc, ty, tokens)?;
            Ok(SigTree::Field(ty))
        }
        SigTree::Locals(types) => {
            let (types, _) = place_types(alloc, types.as_slice(), tokens)?;
            Ok(SigTree::Locals(types))
        }
        SigTree::Property { this, ty, params } => {
            let (ty, rest) = place_type(alloc, ty, tokens)?;
            let (params, _) = place_types(alloc, params.as_slice(), rest)?;
            Ok(SigTree::Property {
                this: *this,
                ty,
                params,
            })
        }
        SigTree::Inst(args) => {
            let (args, _) = place_types(alloc, args.as_slice(), tokens)?;
            Ok(SigTree::Inst(args))
        }
        SigTree::Plain(ty) => {
            let (ty, _) = place_type(alloc, ty, tokens)?;
            Ok(SigTree::Plain(ty))
        }
    }
}

/// A type with the first of the tokens in the places of its own, and the tokens that are left.
#[cycle(place)]
pub(crate) fn place_type<'a>(alloc: Global, ty: &TypeSig, tokens: &'a [Token]) -> Put<'a, TypeSig>
    ensures { IfOk result (λ placed. Placed placed (type_with ty.now tokens.now)) }
{
    match ty {
        TypeSig::Prim(code) => Ok((TypeSig::Prim(*code), tokens)),
        TypeSig::Var(number) => Ok((TypeSig::Var(*number), tokens)),
        TypeSig::MVar(number) => Ok((TypeSig::MVar(*number), tokens)),
        TypeSig::Value(of) => Ok((TypeSig::Value(next(of, tokens)), others(tokens))),
        TypeSig::Class(of) => Ok((TypeSig::Class(next(of, tokens)), others(tokens))),
        TypeSig::Inst { value, of, args } => place_inst(alloc, *value, of, args.as_slice(), tokens),
        TypeSig::FnPtr(method) => place_pointer(alloc, method.get(), tokens),
        TypeSig::Ptr(inner) => {
            let (inner, rest) = place_boxed(alloc, inner.get(), tokens)?;
            Ok((TypeSig::Ptr(inner), rest))
        }
        TypeSig::ByRef(inner) => {
            let (inner, rest) = place_boxed(alloc, inner.get(), tokens)?;
            Ok((TypeSig::ByRef(inner), rest))
        }
        TypeSig::SzArray(inner) => {
            let (inner, rest) = place_boxed(alloc, inner.get(), tokens)?;
            Ok((TypeSig::SzArray(inner), rest))
        }
        TypeSig::Pinned(inner) => {
            let (inner, rest) = place_boxed(alloc, inner.get(), tokens)?;
            Ok((TypeSig::Pinned(inner), rest))
        }
        TypeSig::Mod {
            required,
            of,
            inner,
        } => place_mod(alloc, *required, of, inner.get(), tokens),
        TypeSig::Array {
            elem,
            rank,
            sizes,
            lows,
        } => {
            let (elem, rest) = place_boxed(alloc, elem.get(), tokens)?;
            Ok((array(elem, *rank, sizes, lows)?, rest))
        }
    }
}

/// A function pointer.
#[cycle(place)]
fn place_pointer<'a>(alloc: Global, method: &MethodSig, tokens: &'a [Token]) -> Put<'a, TypeSig>
    ensures { IfOk result (λ placed. Placed placed (pointer_with method.now tokens.now)) }
{
    let (method, rest) = place_method(alloc, method, tokens)?;
    Ok((TypeSig::FnPtr(Boxed::new(alloc, method)?), rest))
}

/// An array of that element type, with copies of the sizes and lowest indices.
fn array(
    elem: Boxed<TypeSig>,
    rank: u32,
    sizes: &List<u32>,
    lows: &List<i32>,
) -> Result<TypeSig, NoMemory>
    ensures { IfOk result (λ ty. ty ≡ Array elem rank sizes.now lows.now) }
{
    let sizes = sizes.copy()?;
    let lows = lows.copy()?;
    Ok(TypeSig::Array {
        elem,
        rank,
        sizes,
        lows,
    })
}

/// A generic type, whose own token comes before those of its arguments.
#[cycle(place)]
fn place_inst<'a>(
    alloc: Global,
    value: bool,
    of: &Token,
    args: &[TypeSig],
    tokens: &'a [Token],
) -> Put<'a, TypeSig>
    ensures { IfOk result (λ placed. Placed placed (inst_with value of.now args.now tokens.now)) }
{
    let of = next(of, tokens);
    let (args, rest) = place_types(alloc, args, others(tokens))?;
    Ok((TypeSig::Inst { value, of, args }, rest))
}

/// A modified type: the modifier's token comes before those of the type.
#[cycle(place)]
fn place_mod<'a>(
    alloc: Global,
    required: bool,
    of: &Token,
    inner: &TypeSig,
    tokens: &'a [Token],
) -> Put<'a, TypeSig>
    ensures { IfOk result (λ placed. Placed placed (mod_with required of.now inner.now tokens.now)) }
{
    let of = next(of, tokens);
    let (inner, rest) = place_boxed(alloc, inner, others(tokens))?;
    Ok((
        TypeSig::Mod {
            required,
            of,
            inner,
        },
        rest,
    ))
}

/// The same as `place_type`, moved to the heap.
#[cycle(place)]
fn place_boxed<'a>(alloc: Global, ty: &TypeSig, tokens: &'a [Token]) -> Put<'a, Boxed<TypeSig>>
    ensures { IfOk result (λ placed. Placed placed (type_with ty.now tokens.now)) }
{
    let (ty, rest) = place_type(alloc, ty, tokens)?;
    Ok((Boxed::new(alloc, ty)?, rest))
}

/// A method's signature with the first of the tokens in the places of its own, and the tokens that are left.
#[cycle(place)]
pub(crate) fn place_method<'a>(
    alloc: Global,
    method: &MethodSig,
    tokens: &'a [Token],
) -> Put<'a, MethodSig>
    ensures { IfOk result (λ placed. Placed placed (method_with method.now tokens.now)) }
{
    let (ret, rest) = place_type(alloc, &method.ret, tokens)?;
    let (params, rest) = place_types(alloc, method.params.as_slice(), rest)?;
    let placed = MethodSig {
        kind: method.kind,
        this: method.this,
        explicit: method.explicit,
        arity: method.arity,
        ret,
        params,
        sentinel: method.sentinel,
    };
    Ok((placed, rest))
}

/// Types with the first of the tokens in the places of their own, and the tokens that are left.
#[cycle(place)]
fn place_types<'a>(alloc: Global, types: &[TypeSig], tokens: &'a [Token]) -> Put<'a, List<TypeSig>>
    ensures { IfOk result (λ placed. Placed placed (types_with types.now tokens.now)) }
{
    let mut all = List::new(alloc);
    let mut rest = tokens;
    for ty in types {
        let (ty, left) = place_type(alloc, ty, rest)?;
        all.push(ty)?;
        rest = left;
    }
    Ok((all, rest))
}

/// The first token, or the old one where none is left.
fn next(old: &Token, tokens: &[Token]) -> Token
    ensures { result ≡ next old.now tokens.now }
{
    match tokens {
        [first, ..] => *first,
        [] => *old,
    }
}

/// The tokens after the first.
fn others(tokens: &[Token]) -> &[Token]
    ensures { result.now ≡ drop 1 tokens.now }
{
    match tokens {
        [_, rest @ ..] => rest,
        [] => tokens,
    }
}
