ghost use Rattle.std.specs.Prelude.{◌≡◌, ◌++◌, OnOk, IfOk};
ghost use Rattle.sig_tree.specs.Printed.{tokens};
ghost use Rattle.sig_tree.specs.inner.OwnTokens.{type_tokens, types_tokens, method_tokens};

use crate::sig::Sig;
use crate::tree::{MethodSig, SigTree, TypeSig};
use cil_base::{List, NoMemory, Token};
use std::alloc::Global;

/// The type tokens of a signature in the order in which they are printed, repeats included.
pub fn sig_tokens(alloc: Global, sig: &Sig) -> Result<List<Token>, NoMemory>
    ensures { IfOk result (λ all. all ≡ tokens sig.now) }
{
    let mut out = List::new(alloc);
    add_sig(sig.tree(), &mut out)?;
    Ok(out)
}

/// Adds the tokens of a signature.
#[tactic(auto, using(crate::proofs::TokenSteps::of_sig))]
fn add_sig(sig: &SigTree, out: &mut List<Token>) -> Result<(), NoMemory>
    ensures { OnOk result (out.new ≡ out.old ++ tokens sig.now) }
{
    match sig {
        SigTree::Method(method) => add_method(method, out),
        SigTree::Field(ty) => add_type(ty, out),
        SigTree::Locals(types) => add_types(types.as_slice(), out),
        SigTree::Inst(args) => add_types(args.as_slice(), out),
        SigTree::Plain(ty) => add_type(ty, out),
        SigTree::Property { ty, params, .. } => {
            add_type(ty, out)?;
            add_types(params.as_slice(), out)
        }
    }
}

/// Adds the tokens of a type: a type's own stands before those of its parts.
#[cycle(tokens)]
#[tactic(auto, using(crate::proofs::TokenSteps::of_type))]
fn add_type(ty: &TypeSig, out: &mut List<Token>) -> Result<(), NoMemory>
    ensures { OnOk result (out.new ≡ out.old ++ type_tokens ty.now) }
{
    match ty {
        TypeSig::Prim(_) => Ok(()),
        TypeSig::Var(_) => Ok(()),
        TypeSig::MVar(_) => Ok(()),
        TypeSig::Value(of) => out.push(*of),
        TypeSig::Class(of) => out.push(*of),
        TypeSig::Ptr(inner) => add_type(inner.get(), out),
        TypeSig::ByRef(inner) => add_type(inner.get(), out),
        TypeSig::SzArray(inner) => add_type(inner.get(), out),
        TypeSig::Pinned(inner) => add_type(inner.get(), out),
        TypeSig::Array { elem, .. } => add_type(elem.get(), out),
        TypeSig::Inst { of, args, .. } => {
            out.push(*of)?;
            add_types(args.as_slice(), out)
        }
        TypeSig::FnPtr(method) => add_method(method.get(), out),
        TypeSig::Mod { of, inner, .. } => {
            out.push(*of)?;
            add_type(inner.get(), out)
        }
    }
}

/// Adds the tokens of a method's signature: those of the returned type come first.
#[cycle(tokens)]
#[tactic(auto, using(crate::proofs::TokenSteps::of_method))]
fn add_method(method: &MethodSig, out: &mut List<Token>) -> Result<(), NoMemory>
    ensures { OnOk result (out.new ≡ out.old ++ method_tokens method.now) }
{
    add_type(&method.ret, out)?;
    add_types(method.params.as_slice(), out)
}

/// Adds the tokens of types in order.
#[cycle(tokens)]
fn add_types(types: &[TypeSig], out: &mut List<Token>) -> Result<(), NoMemory>
    ensures { OnOk result (out.new ≡ out.old ++ types_tokens types.now) }
{
    for ty in types {
        add_type(ty, out)?;
    }
    Ok(())
}
