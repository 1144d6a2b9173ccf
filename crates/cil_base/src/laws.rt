ghost use Rattle.std.specs.Prelude.{◌≡◌, ◌<◌, ◌^◌, ℕ, List, Some, None};
ghost use Rattle.cil_base.specs.Heaps.{entry, first_bytes};
ghost use Rattle.cil_base.specs.Number.{strip_number};
ghost use Rattle.cil_base.specs.Token.{Token, token_from, token_number};

/// The number before an entry decides it, in whatever form it stands: the entry is as many bytes after it, or there is
/// none where there are fewer, or no number (ECMA-335 II.24.2.4).
pub fn length_decides_the_entry()
    ensures found { (len : ℕ) (s r : List ℕ) → strip_number len s ≡ Some r → entry s ≡ first_bytes len r }
    ensures none { (s : List ℕ) → ((len : ℕ) → strip_number len s ≡ None) → entry s ≡ None }
{}

/// A token and its number give each other: a token whose row is below 2^24 is the one that its number holds, and each
/// number is that of the token which it holds (ECMA-335 II.22, III.1.9).
pub fn tokens_are_numbers()
    ensures back { (token : Token) → token.rid < 2 ^ 24 → token_from (token_number token) ≡ token }
    ensures there { (number : ℕ) → token_number (token_from number) ≡ number }
{}
