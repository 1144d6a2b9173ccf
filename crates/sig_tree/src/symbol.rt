use cil_base::Token;

/// What a signature is spelled with (ECMA-335 II.23.2): bytes, compressed numbers and type tokens.
#[derive(Clone, Copy)]
pub enum Symbol {
    Byte(u8),
    Number(usize),
    Signed(i32),
    TypeToken(Token),
}
