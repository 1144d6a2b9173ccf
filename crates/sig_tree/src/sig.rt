ghost use Rattle.std.specs.Prelude.{◌≡◌, ◌↔◌, ◌&&◌, IsTrue, IsSome, IfSome, IfOk, map};
ghost use Rattle.std.specs.List.{list_all};
ghost use Rattle.sig_tree.specs.Symbols.{can_be_spelled};
ghost use Rattle.sig_tree.specs.Spelling.{symbols};
ghost use Rattle.sig_tree.specs.Bounds.{IsBoundedSig, sig_fits};

use crate::bounds::sig_keeps;
use crate::tree::SigTree;
use cil_base::NoMemory;
use std::alloc::Global;
use std::marker::Model;

/// A signature that can be spelled. Contracts see its tree.
#[derive(Drop)]
pub struct Sig {
    tree: SigTree,
}

impl Model for Sig {
    ghost use Rattle.sig_tree.specs.declared.tree.SigTree.{SigTree};
    ghost use Rattle.sig_tree.specs.Bounds.{IsBoundedSig};
    ghost use Rattle.sig_tree.specs.contracts.tree.TypeSig as types;
    ghost use Rattle.std.specs.Coded.{codes};

    ghost Value = { SigTree };

    ghost coded = { Prim.hlevel (codes, types.the_row.coded) };

    ghost view = { λ s. s.tree };

    ghost invariant = { λ s. IsBoundedSig s.tree };
}

impl Sig {
    /// The signature of a tree. None exactly where its depth passes 64, a number cannot be spelled, a type token is not
    /// of TypeDef, TypeRef or TypeSpec, a code is none of those that are read, or a sentinel stands past the
    /// parameters, or after the last one of a function pointer (ECMA-335 II.23.2).
    pub fn of(tree: SigTree) -> Option<Sig>
        ensures exactly { IsSome result ↔ IsBoundedSig tree }
        ensures same { IfSome result (λ sig. sig ≡ tree) }
    {
        if sig_keeps(&tree) {
            Some(Sig { tree })
        } else {
            None
        }
    }

    /// The tree, which can be spelled.
    pub fn tree(&self) -> &SigTree
        ensures same { result.now ≡ self.now }
        ensures bounded { IsBoundedSig result.now }
    {
        &self.tree
    }

    /// The signature of a tree that is known to keep the bounds, which are not tried again.
    pub fn of_bounded(tree: SigTree) -> Sig
        requires { IsBoundedSig tree }
        ensures { result ≡ tree }
    {
        Sig { tree }
    }

    /// An equal signature of its own.
    pub fn copy(&self, alloc: Global) -> Result<Sig, NoMemory>
        ensures { IfOk result (λ copy. copy ≡ self.now) }
    {
        let tree = self.tree.copy(alloc)?;
        Ok(Sig { tree })
    }
}
