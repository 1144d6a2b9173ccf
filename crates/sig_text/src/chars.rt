//! Texts and names of types as pieces of a printed signature.

ghost use Rattle.std.specs.Prelude.{◌≡◌, ◌++◌, ◌∷◌, [], map, codes, OnOk, if◌then◌else◌};
ghost use Rattle.std.specs.Fmt.{decimal};
ghost use Rattle.sig_tree.specs.Printed.{chars};
ghost use Rattle.sig_tree.specs.declared.piece.Piece.TheVariants.{Name};

use cil_base::{List, NoMemory, Token};
use sig_tree::Piece;
use std::alloc::Global;

/// Adds a number in decimal.
pub(crate) fn add_number(alloc: Global, number: u32, out: &mut List<Piece>) -> Result<(), NoMemory>
    ensures { OnOk result (out.new ≡ out.old ++ chars (decimal number)) }
{
    let text = format!(in alloc; "{}", number)?;
    add_text(out, text.as_bytes())
}

/// Adds a text and a number in decimal.
pub(crate) fn add_numbered(
    alloc: Global,
    text: &[u8],
    number: u32,
    out: &mut List<Piece>,
) -> Result<(), NoMemory>
    ensures { OnOk result (out.new ≡ out.old ++ chars text.now ++ chars (decimal number)) }
{
    add_text(out, text)?;
    add_number(alloc, number, out)
}

/// Adds a text and the place of a type's name.
pub(crate) fn add_named(text: &[u8], of: &Token, out: &mut List<Piece>) -> Result<(), NoMemory>
    ensures { OnOk result (out.new ≡ out.old ++ chars text.now ++ Name of.now ∷ []) }
{
    add_text(out, text)?;
    out.push(Piece::Name(*of))
}

/// Adds a comma, except before the first item.
pub(crate) fn add_comma(first: bool, out: &mut List<Piece>) -> Result<(), NoMemory>
    ensures { OnOk result (out.new ≡ out.old ++ (if first then [] else chars (codes ","))) }
{
    if first { Ok(()) } else { add_text(out, b",") }
}

/// Adds the characters of a text.
#[tactic(auto, unfolding(sig_tree::specs::Printed::chars))]
pub(crate) fn add_text(out: &mut List<Piece>, text: &[u8]) -> Result<(), NoMemory>
    ensures { OnOk result (out.new ≡ out.old ++ chars text.now) }
{
    for c in text {
        out.push(Piece::Char(*c))?;
    }
    Ok(())
}
