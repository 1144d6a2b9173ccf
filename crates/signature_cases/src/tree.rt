//! Trees of a case, of which some are no signature:
//!
//! | words | tree |
//! |---|---|
//! | `prim CODE` | the type of one byte |
//! | `var NUMBER`, `mvar NUMBER` | a generic parameter |
//! | `value TOKEN`, `class TOKEN`, `inst TOKEN`, `mod TOKEN` | a type with that token, over `i4` where it holds one |
//! | `rank NUMBER`, `size NUMBER`, `low NUMBER` | an array of `i4` with that rank, size or lowest index |
//! | `kind NUMBER`, `generic NUMBER` | a method `void()` of that calling convention, or with that many generic parameters |
//! | `sentinel PLACE COUNT`, `pointer PLACE COUNT` | a method, or a function pointer, of COUNT times `i4`, with a sentinel |
//! | `deep SORT COUNT` | a signature of a sort with an `i4` below COUNT arrays |

ghost use Rattle.std.specs.Prelude.{◌↔◌, IsSome};
ghost use Rattle.sig_tree.specs.Bounds.{IsBoundedSig};

use crate::shown::shown;
use crate::words::{number, signed, token, word};
use cil_base::{Boxed, Bytes, List, NoMemory};
use sig_tree::{Arity, MethodSig, Sentinel, Sig, SigTree, TypeSig};
use std::alloc::Global;

/// What is shown of the signature of the tree that a case describes.
pub(crate) fn answer(alloc: Global, line: &str) -> Result<Bytes, NoMemory> {
    match signature(tree(alloc, line)?) {
        Some(sig) => shown(alloc, &sig),
        None => List::from_slice(alloc, b"none"),
    }
}

/// The signature of a tree, in both directions.
fn signature(tree: SigTree) -> Option<Sig>
    ensures { IsSome result ↔ IsBoundedSig tree }
{
    Sig::of(tree)
}

/// The tree that a case describes.
fn tree(alloc: Global, line: &str) -> Result<SigTree, NoMemory> {
    let first = number(line, 2);
    match word(line, 1) {
        "kind" => method(alloc, first.min(255) as u8, Arity::Plain),
        "generic" => method(alloc, 0, Arity::Generic(first)),
        "sentinel" => Ok(SigTree::Method(variable(alloc, first, number(line, 3))?)),
        "pointer" => pointer(alloc, variable(alloc, first, number(line, 3))?),
        "deep" => deep(alloc, word(line, 2), nested(alloc, number(line, 3))?),
        _ => Ok(SigTree::Plain(ty(alloc, line)?)),
    }
}

/// A function pointer alone.
fn pointer(alloc: Global, method: MethodSig) -> Result<SigTree, NoMemory> {
    Ok(SigTree::Plain(TypeSig::FnPtr(Boxed::new(alloc, method)?)))
}

/// A type that a case describes.
fn ty(alloc: Global, line: &str) -> Result<TypeSig, NoMemory> {
    let first = number(line, 2);
    let of = token(word(line, 2));
    match word(line, 1) {
        "prim" => Ok(TypeSig::Prim(first.min(255) as u8)),
        "var" => Ok(TypeSig::Var(first)),
        "mvar" => Ok(TypeSig::MVar(first)),
        "value" => Ok(TypeSig::Value(of)),
        "class" => Ok(TypeSig::Class(of)),
        "inst" => Ok(TypeSig::Inst {
            value: false,
            of,
            args: several(alloc, 1)?,
        }),
        "mod" => Ok(TypeSig::Mod {
            required: true,
            of,
            inner: Boxed::new(alloc, TypeSig::Prim(0x08))?,
        }),
        "rank" => array(alloc, first, &[], &[]),
        "size" => array(alloc, 1, &[first], &[]),
        _ => array(alloc, 1, &[], &[signed(line, 2)]),
    }
}

/// An array of `i4`.
fn array(alloc: Global, rank: u32, sizes: &[u32], lows: &[i32]) -> Result<TypeSig, NoMemory> {
    let sizes = List::from_slice(alloc, sizes)?;
    let lows = List::from_slice(alloc, lows)?;
    let elem = Boxed::new(alloc, TypeSig::Prim(0x08))?;
    Ok(TypeSig::Array {
        elem,
        rank,
        sizes,
        lows,
    })
}

/// So many times `i4`.
fn several(alloc: Global, count: u32) -> Result<List<TypeSig>, NoMemory> {
    let mut types = List::new(alloc);
    for _ in 0..count {
        types.push(TypeSig::Prim(0x08))?;
    }
    Ok(types)
}

/// A method without parameters.
fn method(alloc: Global, kind: u8, arity: Arity) -> Result<SigTree, NoMemory> {
    Ok(SigTree::Method(MethodSig {
        kind,
        this: false,
        explicit: false,
        arity,
        ret: TypeSig::Prim(0x01),
        params: List::new(alloc),
        sentinel: Sentinel::None,
    }))
}

/// A method of so many times `i4`, with a sentinel before the one at that place.
fn variable(alloc: Global, place: u32, count: u32) -> Result<MethodSig, NoMemory> {
    let params = several(alloc, count)?;
    Ok(MethodSig {
        kind: 5,
        this: false,
        explicit: false,
        arity: Arity::Plain,
        ret: TypeSig::Prim(0x01),
        params,
        sentinel: Sentinel::Before(place),
    })
}

/// An `i4` below so many arrays.
fn nested(alloc: Global, count: u32) -> Result<TypeSig, NoMemory> {
    let mut ty = TypeSig::Prim(0x08);
    for _ in 0..count {
        ty = TypeSig::SzArray(Boxed::new(alloc, ty)?);
    }
    Ok(ty)
}

/// A signature of that sort with that type.
fn deep(alloc: Global, sort: &str, ty: TypeSig) -> Result<SigTree, NoMemory> {
    match sort {
        "field" => Ok(SigTree::Field(ty)),
        "locals" => Ok(SigTree::Locals(one(alloc, ty)?)),
        "property" => Ok(SigTree::Property {
            this: false,
            ty,
            params: List::new(alloc),
        }),
        "indexer" => indexer(alloc, ty),
        "arguments" => Ok(SigTree::Inst(one(alloc, ty)?)),
        _ => Ok(SigTree::Plain(ty)),
    }
}

/// A property with a parameter of that type.
fn indexer(alloc: Global, ty: TypeSig) -> Result<SigTree, NoMemory> {
    let params = one(alloc, ty)?;
    Ok(SigTree::Property {
        this: true,
        ty: TypeSig::Prim(0x08),
        params,
    })
}

/// A list of one type.
fn one(alloc: Global, ty: TypeSig) -> Result<List<TypeSig>, NoMemory> {
    let mut types = List::new(alloc);
    types.push(ty)?;
    Ok(types)
}
