ghost use Rattle.std.specs.Prelude.{◌≡◌, ◌<◌, ◌==◌, ◌||◌, IfSome, map, string_bytes};
ghost use Rattle.std.specs.List.{list_any};
ghost use Rattle.std.specs.Option.{option_map};
ghost use Rattle.cecil_inspect.specs.Words.{asked, hex_value, is_name, pair_value, token_in};

use cil_base::Token;

/// What is asked of a file.
#[derive(Clone, Copy)]
pub(crate) enum Request {
    /// The rows of its types.
    Dump,
    /// All that hangs on a row.
    Show(Token),
}

/// Whether a `/` or a zero byte stands among bytes.
fn has_barred_byte(bytes: &[u8]) -> bool
    ensures { result ≡ list_any (λ c. (c == 0x2f) || (c == 0)) bytes.now }
{
    bytes.iter().any(|byte| *byte == b'/' || *byte == 0)
}

/// Whether a text may name a file: it is not empty, not `.` or `..`, and has no `/` and no zero byte.
pub fn is_name(name: &str) -> bool
    ensures { result ≡ is_name name.now }
{
    let bytes = name.as_bytes();
    if bytes == b"".as_slice() || bytes == b".".as_slice() || bytes == b"..".as_slice() {
        return false;
    }
    !has_barred_byte(bytes)
}

/// The value of a hex digit, in either case.
fn hex_value(digit: u8) -> Option<u8>
    ensures value { result ≡ hex_value digit }
    ensures small { IfSome result (λ value. value < 16) }
{
    match digit {
        b'0'..=b'9' => Some(digit - b'0'),
        b'a'..=b'f' => Some(digit - 0x57),
        b'A'..=b'F' => Some(digit - 0x37),
        _ => None,
    }
}

/// The value of two hex digits.
#[tactic(auto, unfolding(crate::specs::Words::pair_value))]
fn pair_value(high: u8, low: u8) -> Option<u8>
    ensures { result ≡ pair_value high low }
{
    let high = hex_value(high)?;
    let low = hex_value(low)?;
    Some(16 * high + low)
}

/// The token that eight hex digits give: two for the table and six for the row.
#[tactic(auto, unfolding(crate::specs::Words::token_in))]
fn token_in(word: &[u8]) -> Option<Token>
    ensures { result ≡ token_in word.now }
{
    let [a, b, c, d, e, f, g, h] = word else {
        return None;
    };
    let table = pair_value(*a, *b)?;
    let high = pair_value(*c, *d)?;
    let middle = pair_value(*e, *f)?;
    let low = pair_value(*g, *h)?;
    let rid = u32::from(high) * 65536 + u32::from(middle) * 256 + u32::from(low);
    Some(Token { table, rid })
}

/// The name of the file that the words give, and what they ask of it. None where the words are others.
pub(crate) fn asked(words: &[String]) -> Option<(&str, Request)>
    ensures { option_map (λ a. (a.0.now, a.1)) result ≡ asked (map string_bytes words.now) }
{
    match words {
        [command, name] => {
            if command.as_bytes() != b"dump".as_slice() || !is_name(name.as_str()) {
                return None;
            }
            Some((name.as_str(), Request::Dump))
        }
        [command, name, token] => {
            if command.as_bytes() != b"show".as_slice() || !is_name(name.as_str()) {
                return None;
            }
            let token = token_in(token.as_bytes())?;
            Some((name.as_str(), Request::Show(token)))
        }
        _ => None,
    }
}
