//! Refusals that look at what the keys hold: native code, and tokens that are not kept.

ghost use Rattle.std.specs.Prelude.{◌≡◌};
ghost use Rattle.std.specs.List.{list_any};
ghost use Rattle.std.specs.Option.{option_copied};
ghost use Rattle.node_model.specs.EditRefusals.{first_made};
ghost use Rattle.write_plan.specs.Refusals.{Refuses, dangling_at, is_impure, is_impure_image, not_pure};
ghost use Rattle.write_plan.specs.inner.Taken.{IsMet, value_kept};

use crate::kept::Kept;
use crate::met::MetRows;
use crate::named::dangling_in;
use crate::refusal::WriteRefusal;
use node_model::{BodyValue, Key, Value};
use pe_image::Facts;
use std::alloc::Global;

/// ILONLY of the flags of the CLI header (ECMA-335 II.25.3.3.1).
const IL_ONLY: u32 = 1;

/// NATIVE_ENTRYPOINT of the same.
const NATIVE_ENTRY_POINT: u32 = 0x10;

/// Whether an image is not of IL alone.
fn is_impure_image(facts: &Facts) -> bool
    ensures { result ≡ is_impure_image facts.now }
{
    facts.flags & IL_ONLY == 0 || facts.flags & NATIVE_ENTRY_POINT != 0 || facts.native
}

/// Whether a value says that an image is not of IL alone.
fn is_impure(value: Option<&Value>) -> bool
    ensures { result ≡ is_impure (option_copied value.entry) }
{
    match value {
        Some(Value::Facts(facts)) => is_impure_image(facts),
        Some(Value::Body(BodyValue::Native(_))) => true,
        _ => false,
    }
}

/// Whether the value of one of these keys says so.
fn has_impure(kept: &Kept, keys: &[Key]) -> bool
    ensures { result ≡ list_any (λ k. is_impure (value_kept kept.now k)) keys.now }
{
    for key in keys {
        if is_impure(kept.value(key)) {
            return true;
        }
    }
    false
}

/// Refuses an image that is not of IL alone.
pub(crate) fn refuse_impure(kept: &Kept) -> Result<(), WriteRefusal>
    ensures { Refuses (not_pure (value_kept kept.now) kept.now.keys) result }
{
    if has_impure(kept, kept.keys.as_slice()) {
        return Err(WriteRefusal::NotPureIl);
    }
    Ok(())
}

/// Refuses a key whose value names a token that is not kept.
fn refuse_dangling_at(
    alloc: Global,
    kept: &Kept,
    met: &MetRows,
    key: &Key,
) -> Result<(), WriteRefusal>
    requires { IsMet met.now }
    ensures { Refuses (dangling_at met.now.all key.now (value_kept kept.now key.now)) result }
{
    match kept.value(key) {
        None => Ok(()),
        Some(value) => match dangling_in(alloc, met, value)? {
            Some(token) => Err(WriteRefusal::Dangling(*key, token)),
            None => Ok(()),
        },
    }
}

/// Refuses the first of these keys whose value names a token that is not kept.
fn refuse_dangling_among(
    alloc: Global,
    kept: &Kept,
    met: &MetRows,
    keys: &[Key],
) -> Result<(), WriteRefusal>
    requires { IsMet met.now }
    ensures { Refuses (first_made (λ k. dangling_at met.now.all k (value_kept kept.now k)) keys.now) result }
{
    for key in keys {
        if let Err(refusal) = refuse_dangling_at(alloc, kept, met, key) {
            return Err(refusal);
        }
    }
    Ok(())
}

/// Refuses the first of the keys that were taken whose value names a token that is not kept.
pub(crate) fn refuse_dangling(alloc: Global, kept: &Kept, met: &MetRows) -> Result<(), WriteRefusal>
    requires { IsMet met.now }
    ensures { Refuses (first_made (λ k. dangling_at met.now.all k (value_kept kept.now k)) kept.now.keys) result }
{
    refuse_dangling_among(alloc, kept, met, kept.keys.as_slice())
}
