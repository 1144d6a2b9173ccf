ghost use Rattle.std.specs.Prelude.{◌≡◌};
ghost use Rattle.node_model.specs.Signatures.{sort_fits};

use md_schema::table;
use sig_tree::SigTree;

/// Whether a table has signatures of this sort (ECMA-335 II.22, the clause of each table).
pub fn sort_fits(table: u8, sig: &SigTree) -> bool
    ensures { result ≡ sort_fits table sig.now }
{
    match sig {
        SigTree::Method(_) => {
            table == table::METHOD_DEF
                || table == table::MEMBER_REF
                || table == table::STAND_ALONE_SIG
        }
        SigTree::Field(_) => {
            table == table::FIELD || table == table::MEMBER_REF || table == table::STAND_ALONE_SIG
        }
        SigTree::Locals(_) => table == table::STAND_ALONE_SIG,
        SigTree::Property { .. } => table == table::PROPERTY,
        SigTree::Inst(_) => table == table::METHOD_SPEC,
        SigTree::Plain(_) => table == table::TYPE_SPEC,
    }
}
