ghost use Rattle.std.specs.Prelude.{◌≡◌, drop, slice_get};

use cil_base::{List, Token};
use std::marker::Model;

/// Rows that are still to be asked about, of a list. Contracts see those.
#[derive(Drop)]
pub(crate) struct TokensLeft {
    tokens: List<Token>,
    passed: usize,
}

impl Model for TokensLeft {
    ghost use Rattle.std.specs.Prelude.{List, drop, length, ◌≤◌};
    ghost use Rattle.cil_base.specs.Token.{Token};

    ghost Value = { List Token };

    ghost view = { λ l. drop l.passed l.tokens };

    ghost invariant = { λ l. l.passed ≤ length l.tokens };
}

impl TokensLeft {
    /// All of them.
    pub(crate) fn of(tokens: List<Token>) -> TokensLeft
        ensures { result ≡ tokens }
    {
        TokensLeft { tokens, passed: 0 }
    }

    /// The first. None where none is left.
    pub(crate) fn first(&self) -> Option<Token>
        ensures { result ≡ slice_get self.now 0 }
    {
        self.tokens.as_slice().get(self.passed).copied()
    }

    /// Passes over the first.
    pub(crate) fn advance(&mut self)
        ensures { self.new ≡ drop 1 self.old }
    {
        if self.passed < self.tokens.len() {
            self.passed += 1;
        }
    }
}
