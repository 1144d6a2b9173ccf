ghost use Rattle.std.specs.Prelude.{◌≡◌, ◌∷◌, ◌<◌, ◌^◌, ◌==◌, length, Some, None, IfOk, if◌then◌else◌};
ghost use Rattle.std.specs.Option.{option_and_then};
ghost use Rattle.sig_tree.specs.Fronts.{wrap, counted_at};
ghost use Rattle.sig_tree.specs.TreeAt.{whole, property_at, ends_method, last_sentinel, sort_at, tree_at};
ghost use Rattle.sig_tree.specs.Parsing.{type_sig_at, method_at};
ghost use Rattle.sig_tree.specs.declared.tree.SigTree.TheVariants.{Field, Locals, Inst as MethodInst, Plain};

use crate::read_number::read_number;
use crate::read_type::{read_method, read_more, read_type, read_types};
use cil_base::{List, NoMemory};
use sig_tree::{DEPTH_LIMIT, MethodSig, Sentinel, Sig, SigTree, element_type as el};
use std::alloc::Global;

/// The signature that the whole blob spells: a type alone where `plain` is true, as in a TypeSpec row, and else one of
/// another sort. A number may stand in a longer form than it needs. None exactly where no signature of that sort, in
/// its bounds, spells the blob (ECMA-335 II.23.2).
pub fn parse_sig(alloc: Global, plain: bool, blob: &[u8]) -> Result<Option<Sig>, NoMemory>
    ensures { IfOk result (λ found. found ≡ tree_at plain blob.now) }
{
    match parse_tree(alloc, plain, blob)? {
        Some(tree) => Ok(Some(Sig::of_bounded(tree))),
        None => Ok(None),
    }
}

/// The tree that the whole blob spells.
#[tactic(auto, unfolding(sig_tree::specs::TreeAt::tree_at))]
fn parse_tree(alloc: Global, plain: bool, blob: &[u8]) -> Result<Option<SigTree>, NoMemory>
    ensures { IfOk result (λ found. found ≡ tree_at plain blob.now) }
{
    if plain {
        return parse_plain(alloc, blob);
    }
    match blob {
        [head, rest @ ..] => parse_sort(alloc, *head, rest, blob),
        [] => Ok(None),
    }
}

/// A blob of any sort but a type alone, by its first byte.
#[tactic(auto, unfolding(sig_tree::specs::TreeAt::sort_at))]
fn parse_sort(
    alloc: Global,
    head: u8,
    rest: &[u8],
    blob: &[u8],
) -> Result<Option<SigTree>, NoMemory>
    requires { blob.now ≡ head ∷ rest.now }
    ensures { IfOk result (λ found. found ≡ sort_at head rest.now) }
{
    match head {
        el::FIELD => parse_field(alloc, rest),
        el::LOCAL_SIG => parse_locals(alloc, rest),
        el::PROPERTY => parse_property(alloc, false, rest),
        el::PROPERTY_OF_INSTANCE => parse_property(alloc, true, rest),
        el::METHOD_ARGUMENTS => parse_inst(alloc, rest),
        _ => parse_method(alloc, blob),
    }
}

/// A type alone.
fn parse_plain(alloc: Global, bytes: &[u8]) -> Result<Option<SigTree>, NoMemory>
    ensures { IfOk result (λ found. found ≡ whole (wrap Plain (type_sig_at 64 bytes.now))) }
{
    match read_type(alloc, bytes, DEPTH_LIMIT)? {
        Some((ty, rest)) => Ok(alone(SigTree::Plain(ty), rest)),
        None => Ok(None),
    }
}

/// A field's signature after its first byte.
fn parse_field(alloc: Global, bytes: &[u8]) -> Result<Option<SigTree>, NoMemory>
    ensures { IfOk result (λ found. found ≡ whole (wrap Field (type_sig_at 64 bytes.now))) }
{
    match read_type(alloc, bytes, DEPTH_LIMIT)? {
        Some((ty, rest)) => Ok(alone(SigTree::Field(ty), rest)),
        None => Ok(None),
    }
}

/// Local variables after their first byte.
fn parse_locals(alloc: Global, bytes: &[u8]) -> Result<Option<SigTree>, NoMemory>
    ensures { IfOk result (λ found. found ≡ whole (wrap Locals (counted_at (type_sig_at 64) bytes.now))) }
{
    match read_types(alloc, bytes, DEPTH_LIMIT)? {
        Some((types, rest)) => Ok(alone(SigTree::Locals(types), rest)),
        None => Ok(None),
    }
}

/// The arguments of a generic method after their first byte.
fn parse_inst(alloc: Global, bytes: &[u8]) -> Result<Option<SigTree>, NoMemory>
    ensures { IfOk result (λ found. found ≡ whole (wrap MethodInst (counted_at (type_sig_at 64) bytes.now))) }
{
    match read_types(alloc, bytes, DEPTH_LIMIT)? {
        Some((args, rest)) => Ok(alone(SigTree::Inst(args), rest)),
        None => Ok(None),
    }
}

/// A property's signature after its first byte.
fn parse_property(alloc: Global, this: bool, bytes: &[u8]) -> Result<Option<SigTree>, NoMemory>
    ensures { IfOk result (λ found. found ≡ whole (property_at this bytes.now)) }
{
    let Some((count, bytes)) = read_number(bytes) else {
        return Ok(None);
    };
    let Some((ty, bytes)) = read_type(alloc, bytes, DEPTH_LIMIT)? else {
        return Ok(None);
    };
    match read_more(alloc, List::new(alloc), bytes, count, DEPTH_LIMIT)? {
        Some((params, rest)) => Ok(alone(SigTree::Property { this, ty, params }, rest)),
        None => Ok(None),
    }
}

/// The tree, where no byte is left after it.
fn alone(tree: SigTree, rest: &[u8]) -> Option<SigTree>
    ensures { result ≡ (if length rest.now == 0 then Some tree else None) }
{
    if rest.is_empty() { Some(tree) } else { None }
}

/// A method's signature, from its first byte on.
#[tactic(auto, using(crate::proofs::Short::method_short))]
fn parse_method(alloc: Global, blob: &[u8]) -> Result<Option<SigTree>, NoMemory>
    ensures { IfOk result (λ found. found ≡ option_and_then ends_method (method_at (type_sig_at 64) blob.now)) }
{
    match read_method(alloc, blob, DEPTH_LIMIT)? {
        Some((method, rest)) => Ok(end_method(method, rest)),
        None => Ok(None),
    }
}

/// The method, with the sentinel that may stand after its last parameter. None where other bytes are left.
fn end_method(method: MethodSig, rest: &[u8]) -> Option<SigTree>
    requires { length method.params < 2 ^ 29 }
    ensures { result ≡ ends_method (method, rest.now) }
{
    match rest {
        [] => Some(SigTree::Method(method)),
        [el::SENTINEL] => end_with_sentinel(method),
        _ => None,
    }
}

/// The method with a sentinel after its last parameter, where no other stands.
fn end_with_sentinel(method: MethodSig) -> Option<SigTree>
    requires { length method.params < 2 ^ 29 }
    ensures { result ≡ last_sentinel method method.sentinel }
{
    match method.sentinel {
        Sentinel::None => {
            let count = method.params.len() as u32;
            let MethodSig {
                kind,
                this,
                explicit,
                arity,
                ret,
                params,
                ..
            } = method;
            let sentinel = Sentinel::Before(count);
            Some(SigTree::Method(MethodSig {
                kind,
                this,
                explicit,
                arity,
                ret,
                params,
                sentinel,
            }))
        }
        Sentinel::Before(_) => None,
    }
}
