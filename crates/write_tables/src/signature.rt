//! The blobs of signatures (ECMA-335 II.23.2).

ghost use Rattle.std.specs.Prelude.{◌≡◌, IfOk, Some};
ghost use Rattle.write_plan.specs.Renamed.{renamed};
ghost use Rattle.write_plan.specs.Written.{new_token};
ghost use Rattle.write_tables.specs.RowColumns.{sig_blob, spelled_value};

use cil_base::{Bytes, List, NoMemory, Token};
use node_model::{Key, Value};
use sig_text::spell_sig;
use std::alloc::Global;
use write_plan::Plan;

/// The bytes of a signature; any other value has none.
fn spelled_value(alloc: Global, value: &Value) -> Result<Bytes, NoMemory>
    ensures { IfOk result (λ bytes. bytes ≡ spelled_value (Some value.now)) }
{
    match value {
        Value::Sig(sig) => spell_sig(alloc, sig),
        _ => Ok(List::new(alloc)),
    }
}

/// The bytes of a signature with its tokens by their new numbers.
fn spelled_anew(alloc: Global, plan: &Plan, value: &Value) -> Result<Bytes, NoMemory>
    ensures { IfOk result (λ bytes. bytes ≡ spelled_value (Some (renamed (new_token plan.now.lists) value.now))) }
{
    match plan.renamed(alloc, value) {
        Ok(new) => spelled_value(alloc, &new),
        Err(NoMemory) => Err(NoMemory),
    }
}

/// The bytes of a row's signature with its tokens by their new numbers.
pub(crate) fn sig_blob(alloc: Global, plan: &Plan, row: Token) -> Result<Bytes, NoMemory>
    ensures { IfOk result (λ bytes. bytes ≡ sig_blob plan.now row) }
{
    match plan.value(&Key::Sig(row)) {
        Some(value) => spelled_anew(alloc, plan, value),
        None => Ok(List::new(alloc)),
    }
}
