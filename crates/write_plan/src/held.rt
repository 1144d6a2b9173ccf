//! What the keys hold that were taken: rows, signatures, lists.

ghost use Rattle.std.specs.Prelude.{◌≡◌};
ghost use Rattle.std.specs.Option.{option_copied};
ghost use Rattle.node_model.specs.declared.key.Key.TheVariants as keys;
ghost use Rattle.write_plan.specs.Seen.{list_members};
ghost use Rattle.write_plan.specs.Unfit.{row_held, sig_in};
ghost use Rattle.write_plan.specs.inner.Taken.{value_kept};

use crate::kept::Kept;
use cil_base::Token;
use node_model::{Key, RowValue, Value};
use sig_tree::Sig;

/// The cells of a row, if they were taken.
pub(crate) fn row_held(kept: &Kept, token: Token) -> Option<&RowValue>
    ensures { option_copied result ≡ row_held (value_kept kept.now (keys.Row token)) }
{
    match kept.value(&Key::Row(token)) {
        Some(Value::Row(row)) => Some(row),
        _ => None,
    }
}

/// The signature of a row, if it was taken.
pub(crate) fn sig_in(kept: &Kept, token: Token) -> Option<&Sig>
    ensures { option_copied result ≡ sig_in (value_kept kept.now (keys.Sig token)) }
{
    match kept.value(&Key::Sig(token)) {
        Some(Value::Sig(sig)) => Some(sig),
        _ => None,
    }
}

/// The members of a list.
pub(crate) fn list_members<'a>(value: Option<&'a Value>) -> &'a [Token]
    ensures { result.now ≡ list_members (option_copied value.entry) }
{
    match value {
        Some(Value::Tokens(tokens)) => tokens.as_slice(),
        _ => &[],
    }
}
