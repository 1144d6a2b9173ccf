ghost use Rattle.std.specs.Prelude.{◌≡◌, ◌++◌, ◌<◌, ◌^◌, [], unwrap_or, OnOk, IfOk, IsTrue};
ghost use Rattle.std.specs.List.{list_all};
ghost use Rattle.cil_base.specs.Number.{spelled_number};
ghost use Rattle.sig_tree.specs.declared.symbol.Symbol.TheVariants.{TypeToken};
ghost use Rattle.sig_tree.specs.Symbols.{can_be_spelled, spelling_of, spelled};
ghost use Rattle.sig_tree.specs.Spelling.{spell};

use crate::symbols::sig_symbols;
use cil_base::{Bytes, List, NoMemory, Token, write_compressed, write_signed};
use sig_tree::{Sig, Symbol, element_type as el};
use std::alloc::Global;

/// The bytes of a signature, each number in its shortest form (ECMA-335 II.23.2).
pub fn spell_sig(alloc: Global, sig: &Sig) -> Result<Bytes, NoMemory>
    ensures { IfOk result (λ bytes. bytes ≡ spell sig.now) }
{
    let symbols = sig_symbols(alloc, sig.tree())?;
    spell_symbols(alloc, symbols.as_slice())
}

/// The shortest bytes of symbols in order.
fn spell_symbols(alloc: Global, symbols: &[Symbol]) -> Result<Bytes, NoMemory>
    requires { IsTrue (list_all can_be_spelled symbols.now) }
    ensures { IfOk result (λ bytes. bytes ≡ spelled symbols.now) }
{
    let mut out = List::new(alloc);
    for symbol in symbols {
        add_symbol(symbol, &mut out)?;
    }
    Ok(out)
}

/// Adds the shortest bytes of a symbol.
fn add_symbol(symbol: &Symbol, out: &mut Bytes) -> Result<(), NoMemory>
    requires { IsTrue (can_be_spelled symbol.now) }
    ensures { OnOk result (out.new ≡ out.old ++ unwrap_or (spelling_of symbol.now) []) }
{
    match symbol {
        Symbol::Byte(byte) => out.push(*byte),
        Symbol::Number(number) => add_number(*number as u32, out),
        Symbol::Signed(low) => out.extend(write_signed(*low).as_slice()),
        Symbol::TypeToken(of) => add_token(of, out),
    }
}

/// Adds a number in its shortest form.
fn add_number(number: u32, out: &mut Bytes) -> Result<(), NoMemory>
    requires { number < 2 ^ 29 }
    ensures { OnOk result (out.new ≡ out.old ++ spelled_number number) }
{
    out.extend(write_compressed(number).as_slice())
}

/// Adds the number of a type token: its row above two bits of tag (ECMA-335 II.23.2.8).
fn add_token(of: &Token, out: &mut Bytes) -> Result<(), NoMemory>
    requires { IsTrue (can_be_spelled (TypeToken of.now)) }
    ensures { OnOk result (out.new ≡ out.old ++ unwrap_or (spelling_of (TypeToken of.now)) []) }
{
    match of.table {
        el::TYPE_DEF => add_number(of.rid * 4, out),
        el::TYPE_REF => add_number(of.rid * 4 + 1, out),
        // TypeSpec: the token can be spelled
        _ => add_number(of.rid * 4 + 2, out),
    }
}
