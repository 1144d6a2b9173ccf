ghost use Rattle.std.specs.Prelude.{◌≡◌, ◌∷◌, []};
ghost use Rattle.sig_tree.specs.Printed.{tokens};
ghost use Rattle.node_model.specs.NamedTokens.{sig_names};
ghost use Rattle.node_model.specs.Nodes.{nodes_there};
ghost use Rattle.graph_edits.specs.inner.BadNames.{first_bad, first_bad_type};
ghost use Rattle.graph_edits.specs.inner.BadNames.{tokens_of_method, tokens_of_type, tokens_of_types};

use crate::names::bad_unless;
use cil_base::Token;
use md_schema::{CodedKind, ColumnKind, may_name};
use node_model::RowsThere;
use sig_tree::{MethodSig, Sig, SigTree, TypeSig};

/// The first token that a signature names, in the order in which it is printed, and that is refused: it is no row, was
/// removed, or is no type (ECMA-335 II.23.2.8).
#[tactic(auto, unfolding(crate::specs::inner::BadNames::first_bad_type))]
pub(crate) fn bad_in_sig(rows: &RowsThere, sig: &Sig) -> Option<Token>
    ensures { result ≡ first_bad (nodes_there rows.now) (sig_names sig.now) }
{
    bad_in_tree(rows, sig.tree())
}

/// The first refused token of a tree.
#[tactic(auto, using(crate::proofs::TypeTokens::of_sig))]
fn bad_in_tree(rows: &RowsThere, sig: &SigTree) -> Option<Token>
    ensures { result ≡ first_bad_type (nodes_there rows.now) (tokens sig.now) }
{
    match sig {
        SigTree::Method(method) => bad_in_method(rows, method),
        SigTree::Field(ty) => bad_in_type(rows, ty),
        SigTree::Locals(types) => bad_in_types(rows, types.as_slice()),
        SigTree::Inst(args) => bad_in_types(rows, args.as_slice()),
        SigTree::Plain(ty) => bad_in_type(rows, ty),
        SigTree::Property { ty, params, .. } => {
            if let Some(token) = bad_in_type(rows, ty) {
                return Some(token);
            }
            bad_in_types(rows, params.as_slice())
        }
    }
}

/// A token in the place of a type, if it is refused.
#[tactic(auto, unfolding(crate::specs::inner::BadNames::first_bad_type))]
fn bad_type(rows: &RowsThere, token: Token) -> Option<Token>
    ensures { result ≡ first_bad_type (nodes_there rows.now) (token ∷ []) }
{
    let allowed = may_name(ColumnKind::Coded(CodedKind::TypeDefOrRef), token.table);
    bad_unless(rows, allowed, token)
}

/// The first refused token of a type: a type's own stands before those of its parts.
#[cycle(names)]
#[tactic(auto, using(crate::proofs::TypeTokens::of_type))]
fn bad_in_type(rows: &RowsThere, ty: &TypeSig) -> Option<Token>
    ensures { result ≡ first_bad_type (nodes_there rows.now) (tokens_of_type ty.now) }
{
    match ty {
        TypeSig::Prim(_) => None,
        TypeSig::Var(_) => None,
        TypeSig::MVar(_) => None,
        TypeSig::Value(of) => bad_type(rows, *of),
        TypeSig::Class(of) => bad_type(rows, *of),
        TypeSig::Ptr(inner) => bad_in_type(rows, inner.get()),
        TypeSig::ByRef(inner) => bad_in_type(rows, inner.get()),
        TypeSig::SzArray(inner) => bad_in_type(rows, inner.get()),
        TypeSig::Pinned(inner) => bad_in_type(rows, inner.get()),
        TypeSig::Array { elem, .. } => bad_in_type(rows, elem.get()),
        TypeSig::Inst { of, args, .. } => {
            if let Some(token) = bad_type(rows, *of) {
                return Some(token);
            }
            bad_in_types(rows, args.as_slice())
        }
        TypeSig::FnPtr(method) => bad_in_method(rows, method.get()),
        TypeSig::Mod { of, inner, .. } => {
            if let Some(token) = bad_type(rows, *of) {
                return Some(token);
            }
            bad_in_type(rows, inner.get())
        }
    }
}

/// The first refused token of a method's signature: those of the returned type come first.
#[cycle(names)]
#[tactic(auto, using(crate::proofs::TypeTokens::of_method))]
fn bad_in_method(rows: &RowsThere, method: &MethodSig) -> Option<Token>
    ensures { result ≡ first_bad_type (nodes_there rows.now) (tokens_of_method method.now) }
{
    if let Some(token) = bad_in_type(rows, &method.ret) {
        return Some(token);
    }
    bad_in_types(rows, method.params.as_slice())
}

/// The first refused token of types in order.
#[cycle(names)]
fn bad_in_types(rows: &RowsThere, types: &[TypeSig]) -> Option<Token>
    ensures { result ≡ first_bad_type (nodes_there rows.now) (tokens_of_types types.now) }
{
    for ty in types {
        if let Some(token) = bad_in_type(rows, ty) {
            return Some(token);
        }
    }
    None
}
