//! Laws: functions without a body, whose contracts hold of all values. A proof that needs one calls it.

ghost use Rattle.std.specs.Prelude.{◌≡◌, ◌++◌, List, ℕ, Bool, Some, length, map};
ghost use Rattle.cil_base.specs.Token.{Token};
ghost use Rattle.sig_tree.specs.Spelling.{strip, spell};
ghost use Rattle.sig_tree.specs.Reads.{ReadsSig};
ghost use Rattle.sig_tree.specs.TreeAt.{TreeReads};
ghost use Rattle.sig_tree.specs.Bounds.{IsBoundedSig};
ghost use Rattle.sig_tree.specs.Printed.{tokens, printed, named_sig, own_text};
ghost use Rattle.sig_tree.specs.Replaced.{replaced};
ghost use Rattle.sig_tree.specs.declared.tree.SigTree.{SigTree};

/// The spelling of a signature is stripped off whatever follows it.
pub fn spelling_is_read_back()
    ensures { (sig : SigTree) (r : List ℕ) → IsBoundedSig sig → strip sig (spell sig ++ r) ≡ Some r }
{}

/// At most one signature of a sort reads a list of bytes.
pub fn one_reading()
    ensures { (plain : Bool) (a b : SigTree) (bytes : List ℕ)
        → ReadsSig plain a bytes → ReadsSig plain b bytes → a ≡ b }
{}

/// The parser's definition gives exactly the signature that reads the blob.
pub fn tree_reads()
    ensures { TreeReads }
{}

/// The tokens of a signature with other tokens are those.
pub fn replaced_tokens()
    ensures { (sig : SigTree) (ts : List Token) → length ts ≡ length (tokens sig) → tokens (replaced sig ts) ≡ ts }
{}

/// A signature printed with the texts of its own tokens as names is printed.
pub fn own_texts_print()
    ensures { (sig : SigTree) → named_sig sig (map own_text (tokens sig)) ≡ printed sig }
{}
