ghost use Rattle.std.specs.Prelude.{◌≡◌, ◌↔◌, IsTrue};
ghost use Rattle.sig_tree.specs.declared.tree.TypeSig.TheVariants.{Array, Inst, Mod};

use crate::sig::Sig;
use crate::tree::{Arity, MethodSig, Sentinel, SigTree, TypeSig};
use cil_base::{List, Token};

/// Whether two signatures are one: the same tree, token by token.
pub fn same_sig(a: &Sig, b: &Sig) -> bool
    ensures { IsTrue result ↔ (a.now ≡ b.now) }
{
    same_tree(a.tree(), b.tree())
}

/// Whether two trees are one.
fn same_tree(a: &SigTree, b: &SigTree) -> bool
    ensures { IsTrue result ↔ (a.now ≡ b.now) }
{
    match (a, b) {
        (SigTree::Method(x), SigTree::Method(y)) => same_method(x, y),
        (SigTree::Field(x), SigTree::Field(y)) => same_type(x, y),
        (SigTree::Locals(x), SigTree::Locals(y)) => same_types(x.as_slice(), y.as_slice()),
        (
            SigTree::Property {
                this: this1,
                ty: ty1,
                params: params1,
            },
            SigTree::Property {
                this: this2,
                ty: ty2,
                params: params2,
            },
        ) => *this1 == *this2
            && same_type(ty1, ty2)
            && same_types(params1.as_slice(), params2.as_slice()),
        (SigTree::Inst(x), SigTree::Inst(y)) => same_types(x.as_slice(), y.as_slice()),
        (SigTree::Plain(x), SigTree::Plain(y)) => same_type(x, y),
        _ => false,
    }
}

/// Whether two types are one.
#[cycle(same)]
fn same_type(a: &TypeSig, b: &TypeSig) -> bool
    ensures { IsTrue result ↔ (a.now ≡ b.now) }
{
    match (a, b) {
        (TypeSig::Prim(x), TypeSig::Prim(y)) => *x == *y,
        (TypeSig::Value(x), TypeSig::Value(y)) => same_token(x, y),
        (TypeSig::Class(x), TypeSig::Class(y)) => same_token(x, y),
        (TypeSig::Var(x), TypeSig::Var(y)) => *x == *y,
        (TypeSig::MVar(x), TypeSig::MVar(y)) => *x == *y,
        (TypeSig::Ptr(x), TypeSig::Ptr(y)) => same_type(x.get(), y.get()),
        (TypeSig::ByRef(x), TypeSig::ByRef(y)) => same_type(x.get(), y.get()),
        (TypeSig::SzArray(x), TypeSig::SzArray(y)) => same_type(x.get(), y.get()),
        (TypeSig::Pinned(x), TypeSig::Pinned(y)) => same_type(x.get(), y.get()),
        (TypeSig::FnPtr(x), TypeSig::FnPtr(y)) => same_method(x.get(), y.get()),
        (
            TypeSig::Array {
                elem,
                rank,
                sizes,
                lows,
            },
            _,
        ) => same_array(elem.get(), *rank, sizes, lows, b),
        (TypeSig::Inst { value, of, args }, _) => same_inst(*value, of, args.as_slice(), b),
        (
            TypeSig::Mod {
                required,
                of,
                inner,
            },
            _,
        ) => same_mod(*required, of, inner.get(), b),
        _ => false,
    }
}

/// Whether a type is an array of these parts.
#[cycle(same)]
fn same_array(elem: &TypeSig, rank: u32, sizes: &List<u32>, lows: &List<i32>, b: &TypeSig) -> bool
    ensures { IsTrue result ↔ (Array elem.now rank sizes.now lows.now ≡ b.now) }
{
    match b {
        TypeSig::Array {
            elem: elem2,
            rank: rank2,
            sizes: sizes2,
            lows: lows2,
        } => {
            rank == *rank2
                && same_sizes(sizes, sizes2)
                && same_lows(lows, lows2)
                && same_type(elem, elem2.get())
        }
        _ => false,
    }
}

/// Whether a type is a generic type of these parts.
#[cycle(same)]
fn same_inst(value: bool, of: &Token, args: &[TypeSig], b: &TypeSig) -> bool
    ensures { IsTrue result ↔ (Inst value of.now args.now ≡ b.now) }
{
    match b {
        TypeSig::Inst {
            value: value2,
            of: of2,
            args: args2,
        } => { value == *value2 && same_token(of, of2) && same_types(args, args2.as_slice()) }
        _ => false,
    }
}

/// Whether a type is a modified type of these parts.
#[cycle(same)]
fn same_mod(required: bool, of: &Token, inner: &TypeSig, b: &TypeSig) -> bool
    ensures { IsTrue result ↔ (Mod required of.now inner.now ≡ b.now) }
{
    match b {
        TypeSig::Mod {
            required: required2,
            of: of2,
            inner: inner2,
        } => { required == *required2 && same_token(of, of2) && same_type(inner, inner2.get()) }
        _ => false,
    }
}

/// Whether two methods' signatures are one.
#[cycle(same)]
fn same_method(a: &MethodSig, b: &MethodSig) -> bool
    ensures { IsTrue result ↔ (a.now ≡ b.now) }
{
    a.kind == b.kind
        && a.this == b.this
        && a.explicit == b.explicit
        && same_arity(a.arity, b.arity)
        && same_sentinel(a.sentinel, b.sentinel)
        && same_type(&a.ret, &b.ret)
        && same_types(a.params.as_slice(), b.params.as_slice())
}

/// Whether two rows of types are one.
#[cycle(same)]
fn same_types(a: &[TypeSig], b: &[TypeSig]) -> bool
    ensures { IsTrue result ↔ (a.now ≡ b.now) }
{
    let mut others = b;
    for ty in a {
        match others {
            [other, rest @ ..] => {
                if !same_type(ty, other) {
                    return false;
                }
                others = rest;
            }
            [] => return false,
        }
    }
    others.is_empty()
}

/// Whether two tokens are one.
fn same_token(x: &Token, y: &Token) -> bool
    ensures { IsTrue result ↔ (x.now ≡ y.now) }
{
    x.table == y.table && x.rid == y.rid
}

/// Whether two arities are one.
fn same_arity(x: Arity, y: Arity) -> bool
    ensures { IsTrue result ↔ (x ≡ y) }
{
    match x {
        Arity::Plain => matches!(y, Arity::Plain),
        Arity::Generic(n) => matches!(y, Arity::Generic(m) if n == m),
    }
}

/// Whether two sentinels stand at one place.
fn same_sentinel(x: Sentinel, y: Sentinel) -> bool
    ensures { IsTrue result ↔ (x ≡ y) }
{
    match x {
        Sentinel::None => matches!(y, Sentinel::None),
        Sentinel::Before(n) => matches!(y, Sentinel::Before(m) if n == m),
    }
}

/// Whether two rows of sizes are one.
fn same_sizes(x: &List<u32>, y: &List<u32>) -> bool
    ensures { IsTrue result ↔ (x.now ≡ y.now) }
{
    x.as_slice() == y.as_slice()
}

/// Whether two rows of lowest indices are one.
fn same_lows(x: &List<i32>, y: &List<i32>) -> bool
    ensures { IsTrue result ↔ (x.now ≡ y.now) }
{
    let mut others = y.as_slice();
    for low in x.as_slice() {
        match others {
            [other, rest @ ..] => {
                if *low != *other {
                    return false;
                }
                others = rest;
            }
            [] => return false,
        }
    }
    others.is_empty()
}
