ghost use Rattle.std.specs.Prelude.{◌≡◌, ◌++◌, ◌∷◌, [], ◌&&◌, map, length, codes, OnOk, IfOk, if◌then◌else◌, true};
ghost use Rattle.std.specs.Prelude.{false};
ghost use Rattle.std.specs.Fmt.{decimal, signed_decimal};
ghost use Rattle.sig_tree.specs.Spelling.{with_sentinel, sentinel_at, sentinel_stands};
ghost use Rattle.sig_tree.specs.Printed.{chars, commas, arity_pieces, type_pieces, method_pieces, types_pieces, pieces};

use crate::chars::{add_comma, add_named, add_number, add_numbered, add_text};
use crate::names::{kind_name, prim_name};
use cil_base::{List, NoMemory};
use sig_tree::{Arity, MethodSig, Piece, Sentinel, SigTree, TypeSig};
use std::alloc::Global;

/// The printed form of a signature, part by part.
pub(crate) fn sig_pieces(alloc: Global, sig: &SigTree) -> Result<List<Piece>, NoMemory>
    ensures { IfOk result (λ all. all ≡ pieces sig.now) }
{
    let mut out = List::new(alloc);
    add_sig(alloc, sig, &mut out)?;
    Ok(out)
}

/// Adds the printed form of a signature.
fn add_sig(alloc: Global, sig: &SigTree, out: &mut List<Piece>) -> Result<(), NoMemory>
    ensures { OnOk result (out.new ≡ out.old ++ pieces sig.now) }
{
    match sig {
        SigTree::Method(method) => add_method(alloc, method, out),
        SigTree::Field(ty) => {
            add_text(out, b"field ")?;
            add_type(alloc, ty, out)
        }
        SigTree::Locals(types) => add_bracketed(alloc, b"locals(", types.as_slice(), b")", out),
        SigTree::Property { this, ty, params } => {
            add_text(out, b"property ")?;
            add_text(out, if *this { b"instance " } else { b"" })?;
            add_type(alloc, ty, out)?;
            add_bracketed(alloc, b"(", params.as_slice(), b")", out)
        }
        SigTree::Inst(args) => add_bracketed(alloc, b"inst<", args.as_slice(), b">", out),
        SigTree::Plain(ty) => add_type(alloc, ty, out),
    }
}

/// Adds the printed form of a type.
#[cycle(pieces)]
fn add_type(alloc: Global, ty: &TypeSig, out: &mut List<Piece>) -> Result<(), NoMemory>
    ensures { OnOk result (out.new ≡ out.old ++ type_pieces ty.now) }
{
    match ty {
        TypeSig::Prim(code) => add_text(out, prim_name(*code)),
        TypeSig::Ptr(inner) => add_followed(alloc, inner.get(), b"*", out),
        TypeSig::ByRef(inner) => add_followed(alloc, inner.get(), b"&", out),
        TypeSig::SzArray(inner) => add_followed(alloc, inner.get(), b"[]", out),
        TypeSig::Value(of) => add_named(b"valuetype ", of, out),
        TypeSig::Class(of) => add_named(b"class ", of, out),
        TypeSig::Var(number) => add_numbered(alloc, b"!", *number, out),
        TypeSig::MVar(number) => add_numbered(alloc, b"!!", *number, out),
        TypeSig::Array {
            elem,
            rank,
            sizes,
            lows,
        } => {
            add_type(alloc, elem.get(), out)?;
            add_shape(alloc, *rank, sizes.as_slice(), lows.as_slice(), out)
        }
        TypeSig::Inst { value, of, args } => {
            add_named(if *value { b"valuetype " } else { b"class " }, of, out)?;
            add_bracketed(alloc, b"<", args.as_slice(), b">", out)
        }
        TypeSig::FnPtr(method) => {
            add_text(out, b"fnptr(")?;
            add_method(alloc, method.get(), out)?;
            add_text(out, b")")
        }
        TypeSig::Mod {
            required,
            of,
            inner,
        } => {
            add_named(if *required { b"modreq(" } else { b"modopt(" }, of, out)?;
            add_preceded(alloc, b") ", inner.get(), out)
        }
        TypeSig::Pinned(inner) => add_preceded(alloc, b"pinned ", inner.get(), out),
    }
}

/// Adds a text and the type after it.
#[cycle(pieces)]
fn add_preceded(
    alloc: Global,
    text: &[u8],
    ty: &TypeSig,
    out: &mut List<Piece>,
) -> Result<(), NoMemory>
    ensures { OnOk result (out.new ≡ out.old ++ chars text.now ++ type_pieces ty.now) }
{
    add_text(out, text)?;
    add_type(alloc, ty, out)
}

/// Adds a type and the text after it.
#[cycle(pieces)]
fn add_followed(
    alloc: Global,
    ty: &TypeSig,
    text: &[u8],
    out: &mut List<Piece>,
) -> Result<(), NoMemory>
    ensures { OnOk result (out.new ≡ out.old ++ type_pieces ty.now ++ chars text.now) }
{
    add_type(alloc, ty, out)?;
    add_text(out, text)
}

/// Adds types between two brackets.
#[cycle(pieces)]
fn add_bracketed(
    alloc: Global,
    left: &[u8],
    types: &[TypeSig],
    right: &[u8],
    out: &mut List<Piece>,
) -> Result<(), NoMemory>
    ensures { OnOk result (out.new ≡ out.old ++ chars left.now ++ types_pieces types.now ++ chars right.now) }
{
    add_text(out, left)?;
    add_types(alloc, types, out)?;
    add_text(out, right)
}

/// Adds the printed form of a method's signature.
#[cycle(pieces)]
fn add_method(alloc: Global, method: &MethodSig, out: &mut List<Piece>) -> Result<(), NoMemory>
    ensures { OnOk result (out.new ≡ out.old ++ method_pieces method.now) }
{
    add_text(out, if method.this { b"instance " } else { b"" })?;
    add_text(out, if method.explicit { b"explicit " } else { b"" })?;
    add_text(out, kind_name(method.kind))?;
    add_arity(alloc, method.arity, out)?;
    add_type(alloc, &method.ret, out)?;
    add_text(out, b"(")?;
    add_params(alloc, method.params.as_slice(), method.sentinel, out)?;
    add_text(out, b")")
}

/// The parameters, with `...` where the sentinel stands.
#[cycle(pieces)]
fn add_params(
    alloc: Global,
    params: &[TypeSig],
    sentinel: Sentinel,
    out: &mut List<Piece>,
) -> Result<(), NoMemory>
    ensures { OnOk result (out.new ≡ out.old
        ++ commas true (with_sentinel sentinel (chars (codes "...")) 0 (map type_pieces params.now))) }
{
    let mut first = true;
    for (number, ty) in params.iter().enumerate() {
        first = add_sentinel(sentinel, number, first, out)?;
        add_comma(first, out)?;
        add_type(alloc, ty, out)?;
        first = false;
    }
    add_sentinel(sentinel, params.len(), first, out)?;
    Ok(())
}

/// Types with a comma between each two.
#[cycle(pieces)]
fn add_types(alloc: Global, types: &[TypeSig], out: &mut List<Piece>) -> Result<(), NoMemory>
    ensures { OnOk result (out.new ≡ out.old ++ types_pieces types.now) }
{
    let mut first = true;
    for ty in types {
        add_comma(first, out)?;
        add_type(alloc, ty, out)?;
        first = false;
    }
    Ok(())
}

/// Rank, sizes and lower bounds in brackets.
fn add_shape(
    alloc: Global,
    rank: u32,
    sizes: &[u32],
    lows: &[i32],
    out: &mut List<Piece>,
) -> Result<(), NoMemory>
    ensures { OnOk result (out.new ≡ out.old ++ chars (codes "[") ++ chars (decimal rank) ++ chars (codes ";")
        ++ commas true (map (λ n. chars (decimal n)) sizes.now)
        ++ chars (codes ";") ++ commas true (map (λ z. chars (signed_decimal z)) lows.now) ++ chars (codes "]")) }
{
    add_text(out, b"[")?;
    add_number(alloc, rank, out)?;
    add_text(out, b";")?;
    add_sizes(alloc, sizes, out)?;
    add_text(out, b";")?;
    add_lows(alloc, lows, out)?;
    add_text(out, b"]")
}

/// Adds sizes with a comma between each two.
fn add_sizes(alloc: Global, sizes: &[u32], out: &mut List<Piece>) -> Result<(), NoMemory>
    ensures { OnOk result (out.new ≡ out.old ++ commas true (map (λ n. chars (decimal n)) sizes.now)) }
{
    let mut first = true;
    for size in sizes {
        add_comma(first, out)?;
        add_number(alloc, *size, out)?;
        first = false;
    }
    Ok(())
}

/// Adds lowest indices with a comma between each two.
fn add_lows(alloc: Global, lows: &[i32], out: &mut List<Piece>) -> Result<(), NoMemory>
    ensures { OnOk result (out.new ≡ out.old ++ commas true (map (λ z. chars (signed_decimal z)) lows.now)) }
{
    let mut first = true;
    for low in lows {
        add_comma(first, out)?;
        let text = format!(in alloc; "{}", *low)?;
        add_text(out, text.as_bytes())?;
        first = false;
    }
    Ok(())
}

/// Adds the number of generic parameters, where there is one.
fn add_arity(alloc: Global, arity: Arity, out: &mut List<Piece>) -> Result<(), NoMemory>
    ensures { OnOk result (out.new ≡ out.old ++ arity_pieces arity) }
{
    match arity {
        Arity::Plain => Ok(()),
        Arity::Generic(number) => {
            add_text(out, b"generic ")?;
            add_number(alloc, number, out)?;
            add_text(out, b" ")
        }
    }
}

/// Adds `...` where the sentinel stands before that number, and answers whether nothing stands before the next item
/// yet.
fn add_sentinel(
    sentinel: Sentinel,
    number: usize,
    first: bool,
    out: &mut List<Piece>,
) -> Result<bool, NoMemory>
    ensures text { OnOk result (out.new ≡ out.old ++ commas first (sentinel_at sentinel number (chars (codes "...")))) }
    ensures first { IfOk result (λ still. still ≡ (if sentinel_stands sentinel number then false else first)) }
{
    match sentinel {
        Sentinel::Before(at) if at as usize == number => {
            add_comma(first, out)?;
            add_text(out, b"...")?;
            Ok(false)
        }
        _ => Ok(first),
    }
}
