ghost use Rattle.std.specs.Prelude.{◌≡◌, ◌↔◌, IfOk, IsTrue, length};
ghost use Rattle.std.specs.List.{list_all};
ghost use Rattle.sig_tree.specs.Printed.{tokens};
ghost use Rattle.sig_tree.specs.Replaced.{names_type};

use crate::shown::shown;
use crate::words::{bytes, names_from, tokens_from, word};
use cil_base::{Bytes, List, NoMemory, Token};
use sig_read::parse_sig;
use sig_text::print_named;
use sig_tree::{Sig, names_type, same_sig, sig_tokens, with_tokens};
use std::alloc::Global;

/// The signature whose sort and bytes these are.
fn sig(alloc: Global, sort: &str, hex: &str) -> Result<Option<Sig>, NoMemory> {
    let blob = bytes(alloc, hex)?;
    parse_sig(alloc, sort == "type", blob.as_slice())
}

/// What is shown of a signature.
pub(crate) fn read(alloc: Global, line: &str) -> Result<Bytes, NoMemory> {
    match sig(alloc, word(line, 1), word(line, 2))? {
        Some(sig) => shown(alloc, &sig),
        None => List::from_slice(alloc, b"none"),
    }
}

/// What is shown of its copy.
pub(crate) fn copied(alloc: Global, line: &str) -> Result<Bytes, NoMemory> {
    match sig(alloc, word(line, 1), word(line, 2))? {
        Some(sig) => shown(alloc, &sig.copy(alloc)?),
        None => List::from_slice(alloc, b"none"),
    }
}

/// The printed form with other names.
pub(crate) fn named(alloc: Global, line: &str) -> Result<Bytes, NoMemory> {
    match sig(alloc, word(line, 1), word(line, 2))? {
        Some(sig) => with_names(alloc, &sig, line),
        None => List::from_slice(alloc, b"none"),
    }
}

/// The same of this signature, with the names of the line.
fn with_names(alloc: Global, sig: &Sig, line: &str) -> Result<Bytes, NoMemory> {
    let count = token_count(alloc, sig)?;
    let names = names_from(alloc, line, 3)?;
    if names.len() == count {
        print_named(alloc, sig, &names)
    } else {
        List::from_slice(alloc, b"count")
    }
}

/// How many type tokens a signature has.
fn token_count(alloc: Global, sig: &Sig) -> Result<usize, NoMemory>
    ensures { IfOk result (λ count. count ≡ length (tokens sig.now)) }
{
    let own = sig_tokens(alloc, sig)?;
    Ok(own.len())
}

/// What is shown of a signature with other tokens.
pub(crate) fn replaced(alloc: Global, line: &str) -> Result<Bytes, NoMemory> {
    match sig(alloc, word(line, 1), word(line, 2))? {
        Some(sig) => with_others(alloc, &sig, line),
        None => List::from_slice(alloc, b"none"),
    }
}

/// The same of this signature, with the tokens of the line.
fn with_others(alloc: Global, sig: &Sig, line: &str) -> Result<Bytes, NoMemory> {
    let tokens = tokens_from(alloc, line, 3)?;
    let own = sig_tokens(alloc, sig)?;
    if tokens.len() == own.len() && all_name_types(tokens.as_slice()) {
        let new = with_tokens(alloc, sig, &tokens)?;
        shown(alloc, &new)
    } else {
        List::from_slice(alloc, b"refused")
    }
}

/// Whether a signature can name each of the tokens.
fn all_name_types(tokens: &[Token]) -> bool
    ensures { result ≡ list_all names_type tokens.now }
{
    for token in tokens {
        if !names_type(token) {
            return false;
        }
    }
    true
}

/// Whether two signatures are one.
pub(crate) fn compared(alloc: Global, line: &str) -> Result<Bytes, NoMemory> {
    match sig(alloc, word(line, 1), word(line, 2))? {
        Some(sig) => compared_with(alloc, &sig, line),
        None => List::from_slice(alloc, b"none"),
    }
}

/// Whether this signature and the second of the line are one.
fn compared_with(alloc: Global, a: &Sig, line: &str) -> Result<Bytes, NoMemory> {
    match sig(alloc, word(line, 3), word(line, 4))? {
        Some(b) => {
            let text: &[u8] = if are_one(a, &b) { b"same" } else { b"other" };
            List::from_slice(alloc, text)
        }
        None => List::from_slice(alloc, b"none"),
    }
}

/// Whether two signatures are one, in both directions.
fn are_one(a: &Sig, b: &Sig) -> bool
    ensures { IsTrue result ↔ (a.now ≡ b.now) }
{
    same_sig(a, b)
}
