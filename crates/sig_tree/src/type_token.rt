ghost use Rattle.std.specs.Prelude.{◌≡◌};
ghost use Rattle.sig_tree.specs.Replaced.{names_type};

use crate::element_type as el;
use cil_base::Token;

/// Whether a token is of TypeDef, TypeRef or TypeSpec, so that a signature can name it (ECMA-335 II.23.2.8).
pub fn names_type(of: &Token) -> bool
    ensures { result ≡ names_type of.now }
{
    let _rid = of.rid;
    matches!(of.table, el::TYPE_DEF | el::TYPE_REF | el::TYPE_SPEC)
}
