use cil_base::{Bytes, NoMemory};
use sig_text::{print_sig, spell_sig};
use sig_tree::{Sig, sig_tokens};
use std::alloc::Global;

/// The printed form of a signature, its type tokens and the bytes that it is spelled with, with `|` between them.
pub(crate) fn shown(alloc: Global, sig: &Sig) -> Result<Bytes, NoMemory> {
    let mut out = print_sig(alloc, sig)?;
    out.extend(b" |")?;
    let tokens = sig_tokens(alloc, sig)?;
    for token in tokens.as_slice() {
        out.push(b' ')?;
        out.extend(&token.hex_digits())?;
    }
    out.extend(b" | ")?;
    let spelled = spell_sig(alloc, sig)?;
    for byte in spelled.as_slice() {
        let digits = format!(in alloc; "{byte:02x}")?;
        out.extend(digits.as_bytes())?;
    }
    Ok(out)
}
