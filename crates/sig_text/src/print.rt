ghost use Rattle.std.specs.Prelude.{◌≡◌, ◌++◌, ◌<◌, length, OnOk, IfOk};
ghost use Rattle.sig_tree.specs.Printed.{printed, tokens, named_sig, piece_text, filled_pieces};

use crate::pieces::sig_pieces;
use cil_base::{Bytes, List, NoMemory};
use sig_tree::{Piece, Sig};
use std::alloc::Global;

/// The printed form of a signature, with each type token as two and six lower-case hex digits.
pub fn print_sig(alloc: Global, sig: &Sig) -> Result<Bytes, NoMemory>
    ensures { IfOk result (λ text. text ≡ printed sig.now) }
{
    let pieces = sig_pieces(alloc, sig.tree())?;
    let mut out = List::new(alloc);
    for piece in pieces.as_slice() {
        add_piece(piece, &mut out)?;
    }
    Ok(out)
}

/// The printed form with the names in the places of the type tokens, in order. Asks for as many names as there are
/// tokens.
pub fn print_named(alloc: Global, sig: &Sig, names: &List<Bytes>) -> Result<Bytes, NoMemory>
    requires { length names.now ≡ length (tokens sig.now) }
    ensures { IfOk result (λ text. text ≡ named_sig sig.now names.now) }
{
    let pieces = sig_pieces(alloc, sig.tree())?;
    fill(alloc, pieces.as_slice(), names.as_slice())
}

/// The text of pieces, with the names in order in the places of the tokens.
fn fill(alloc: Global, pieces: &[Piece], names: &[Bytes]) -> Result<Bytes, NoMemory>
    ensures { IfOk result (λ text. text ≡ filled_pieces pieces.now names.now) }
{
    let mut out = List::new(alloc);
    let mut left = names;
    for piece in pieces {
        match piece {
            Piece::Char(c) => out.push(*c)?,
            Piece::Name(_) => match left {
                [name, rest @ ..] => {
                    out.extend(name.as_slice())?;
                    left = rest;
                }
                [] => return Ok(out),
            },
        }
    }
    Ok(out)
}

/// Adds the text of a piece.
fn add_piece(piece: &Piece, out: &mut Bytes) -> Result<(), NoMemory>
    ensures { OnOk result (out.new ≡ out.old ++ piece_text piece.now) }
{
    match piece {
        Piece::Char(c) => out.push(*c),
        Piece::Name(of) => out.extend(&of.hex_digits()),
    }
}
