use cil_base::Token;

/// A part of a printed signature: a character of ASCII, or the place of a type's name.
#[derive(Clone, Copy)]
pub enum Piece {
    Char(u8),
    Name(Token),
}
