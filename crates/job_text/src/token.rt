//! Tokens as commands give them: eight hex digits, or a back reference to what an earlier command makes.

ghost use Rattle.std.specs.Prelude.{◌≡◌, ◌<◌, IfSome};
ghost use Rattle.job_text.specs.Tokens.{back_reference, command_place, decimal_from, decimal_number, of_table, plain_token, given_token, token_of};
ghost use Rattle.serde_json.specs.View.{view};

use crate::command::Command;
use crate::digits::eight_digits;
use crate::new_row::made_row;
use crate::reference::BACK_REFERENCE;
use crate::values::given_text_bytes;
use cil_base::Token;
use serde_json::Value;

/// The most commands of an actor.
pub(crate) const MOST_COMMANDS: u32 = 4096;

/// The first of the tables that have no rows: their tokens stand for rows that are not there yet.
const FIRST_OF_NO_ROWS: u8 = 0xfe;

/// A token, and the table of the row that it stands for.
#[derive(Clone, Copy)]
pub struct RowToken {
    pub token: Token,
    pub table: u8,
}

/// The token, where its table may have rows.
fn of_table(token: Token) -> Option<RowToken>
    ensures { result ≡ of_table token }
{
    let table = token.table;
    if table < FIRST_OF_NO_ROWS {
        Some(RowToken { token, table })
    } else {
        None
    }
}

/// The token of eight hex digits. None exactly where the text is none, or its table has no rows.
#[tactic(auto, unfolding(crate::specs::Tokens::plain_token))]
fn plain_token(text: &[u8]) -> Option<RowToken>
    ensures { result ≡ plain_token text.now }
{
    let number = eight_digits(text)?;
    of_table(Token::from_number(number))
}

/// The number of decimal digits, where it is below the number of an actor's commands.
#[tactic(auto, using(crate::proofs::TokenLemmas::digit_next, crate::proofs::TokenLemmas::digit_high, crate::proofs::TokenLemmas::digit_low, crate::proofs::TokenLemmas::digit_over, crate::proofs::TokenLemmas::number_large))]
fn decimal(text: &[u8]) -> Option<u32>
    ensures same { result ≡ command_place (decimal_from 0 text.now) }
    ensures below { IfSome result (λ number. number < 4096) }
{
    let mut number: u32 = 0;
    for digit in text {
        if *digit < b'0' {
            return None;
        }
        if b'9' < *digit {
            return None;
        }
        number = 10 * number + (*digit - b'0') as u32;
        if MOST_COMMANDS <= number {
            return None;
        }
    }
    Some(number)
}

/// The number of a decimal text without leading zeros, where it is below the number of an actor's commands.
#[tactic(auto, unfolding(crate::specs::Tokens::decimal_number))]
fn command_number(text: &[u8]) -> Option<u32>
    ensures same { result ≡ command_place (decimal_number text.now) }
    ensures below { IfSome result (λ number. number < 4096) }
{
    match text {
        [] => None,
        [b'0', _, ..] => None,
        _ => decimal(text),
    }
}

/// The token for what the command of that number makes in a module, of those before.
#[tactic(auto, unfolding(crate::specs::Tokens::back_reference))]
fn back_reference(home: u32, before: &[Command], text: &[u8]) -> Option<RowToken>
    ensures { result ≡ back_reference home before.now text.now }
{
    let number = command_number(text)?;
    let row = made_row(before.get(number as usize)?)?;
    if row.module == home {
        Some(RowToken {
            token: Token {
                table: BACK_REFERENCE,
                rid: number,
            },
            table: row.table,
        })
    } else {
        None
    }
}

/// The token of a text.
#[tactic(auto, unfolding(crate::specs::Tokens::token_of))]
fn token_of(home: u32, before: &[Command], text: &[u8]) -> Option<RowToken>
    ensures { result ≡ token_of home before.now text.now }
{
    match text {
        [] => None,
        [b'$', rest @ ..] => back_reference(home, before, rest),
        _ => plain_token(text),
    }
}

/// The token that a value gives in a module, after the actor's commands before. None exactly where it gives none.
#[tactic(auto, unfolding(crate::specs::Tokens::given_token))]
pub(crate) fn given_token(home: u32, before: &[Command], value: &Value) -> Option<RowToken>
    ensures { result ≡ given_token home before.now (view value.now) }
{
    token_of(home, before, given_text_bytes(value)?)
}
