ghost use Rattle.std.specs.Prelude.{◌≡◌, ◌<◌, ◌^◌};
ghost use Rattle.cil_base.specs.Token.{token_from, token_number, token_text};

use crate::escaped::hex_digit;
use std::marker::Model;

/// The greatest row number of a table, 2^24 - 1.
pub const MAX_RID: u32 = 0x00ff_ffff;

/// A metadata token: the number of a table and of one of its rows, counted from 1 (ECMA-335 II.22). The row number is below
/// 2^24. `Token { table: 0, rid: 0 }` is the root, which is no row.
#[derive(Clone, Copy, Debug, PartialEq, Eq, PartialOrd, Ord, Hash)]
pub struct Token {
    pub table: u8,
    pub rid: u32,
}

impl Model for Token {
    ghost use Rattle.std.specs.Prelude.{◌<◌, ◌^◌};
    ghost use Rattle.cil_base.specs.Token.{Token};

    ghost Value = { Token };

    ghost view = { λ t. record { table = t.table; rid = t.rid } };

    ghost invariant = { λ t. t.rid < 2 ^ 24 };

    ghost inverse = { λ t. record { table = t.table; rid = t.rid } };
}

impl Token {
    /// The root, which stands for the module where no row is meant.
    pub const ROOT: Token = Token { table: 0, rid: 0 };

    /// The token that a stored number holds: the table's number in the highest byte, the row's in the rest (ECMA-335 II.22,
    /// III.1.9).
    #[tactic(auto, unfolding(crate::specs::Token::token_from))]
    pub fn from_number(number: u32) -> Token
        ensures { result ≡ token_from number }
    {
        Token {
            table: (number / 0x0100_0000) as u8,
            rid: number % 0x0100_0000,
        }
    }

    /// The number that stores the token.
    pub fn number(self) -> u32
        ensures { result ≡ token_number self }
    {
        self.table as u32 * 0x0100_0000 + self.rid
    }

    /// The token as eight lower-case hex digits: two for the table and six for the row.
    pub fn hex_digits(self) -> [u8; 8]
        ensures { result ≡ token_text self.table self.rid }
    {
        let high = (self.rid / 0x10000) as u8;
        let middle = (self.rid / 0x100 % 0x100) as u8;
        let low = (self.rid % 0x100) as u8;
        [
            hex_digit(self.table / 16),
            hex_digit(self.table % 16),
            hex_digit(high / 16),
            hex_digit(high % 16),
            hex_digit(middle / 16),
            hex_digit(middle % 16),
            hex_digit(low / 16),
            hex_digit(low % 16),
        ]
    }
}
