//! Copies: nothing is put in the place of a token where no tokens are given.

ghost use Rattle.std.specs.Prelude.{◌≡◌, IfOk};

use crate::replace::{place_method, place_sig, place_type};
use crate::tree::{MethodSig, SigTree, TypeSig};
use cil_base::NoMemory;
use std::alloc::Global;

impl TypeSig {
    /// An equal type of its own.
    #[tactic(auto, using(crate::proofs::Tokens::type_untouched))]
    pub fn copy(&self, alloc: Global) -> Result<TypeSig, NoMemory>
        ensures { IfOk result (λ copy. copy ≡ self.now) }
    {
        let (copy, _) = place_type(alloc, self, &[])?;
        Ok(copy)
    }
}

impl MethodSig {
    /// An equal signature of its own.
    #[tactic(auto, using(crate::proofs::Tokens::method_untouched))]
    pub fn copy(&self, alloc: Global) -> Result<MethodSig, NoMemory>
        ensures { IfOk result (λ copy. copy ≡ self.now) }
    {
        let (copy, _) = place_method(alloc, self, &[])?;
        Ok(copy)
    }
}

impl SigTree {
    /// An equal tree of its own.
    #[tactic(auto, using(crate::proofs::Tokens::tree_untouched))]
    pub fn copy(&self, alloc: Global) -> Result<SigTree, NoMemory>
        ensures { IfOk result (λ copy. copy ≡ self.now) }
    {
        place_sig(alloc, self, &[])
    }
}
