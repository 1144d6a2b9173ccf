//! Rows of which other things would be read back than what is written (ECMA-335 II.22.18, II.22.24, II.22.26).

ghost use Rattle.std.specs.Prelude.{◌≡◌};
ghost use Rattle.std.specs.Option.{option_copied, option_map};
ghost use Rattle.std.specs.List.{find};
ghost use Rattle.write_plan.specs.Refusals.{Refuses};
ghost use Rattle.write_plan.specs.Unfit.{has_implementation, is_il, is_misplaced, is_other_code, is_other_length};
ghost use Rattle.write_plan.specs.Unfit.{is_unfit_data, is_unfit_method, is_unfit_resource, unfit};
ghost use Rattle.write_plan.specs.declared.refusal.WriteRefusal.TheVariants.{Unfit};
ghost use Rattle.write_plan.specs.inner.Taken.{value_kept};

use crate::held::row_held;
use crate::kept::Kept;
use crate::kept_rows::KeptRows;
use crate::refusal::WriteRefusal;
use crate::row_cells::{number_named, token_named};
use crate::sizes::data_size;
use cil_base::Token;
use md_schema::table;
use node_model::{BodyValue, Key, ResourceValue, RowValue, Value};

/// Whether this is a body of IL.
fn is_il(value: Option<&Value>) -> bool
    ensures { result ≡ is_il (option_copied value.entry) }
{
    matches!(value, Some(Value::Body(BodyValue::Il(_))))
}

/// Whether the code type of a row is not IL.
fn is_other_code(row: &RowValue) -> bool
    ensures { result ≡ is_other_code row.now }
{
    number_named(row, b"ImplFlags") & 3 != 0
}

/// Whether a method has an IL body, and its row says that it has none.
fn is_unfit_method(kept: &Kept, token: Token) -> bool
    ensures { result ≡ is_unfit_method (value_kept kept.now) token }
{
    if !is_il(kept.value(&Key::Body(token))) {
        return false;
    }
    match row_held(kept, token) {
        Some(row) => is_other_code(row),
        None => false,
    }
}

/// Whether these are data, and of another length.
fn is_other_length(size: Option<u64>, value: Option<&Value>) -> bool
    ensures { result ≡ is_other_length size (option_copied value.entry) }
{
    match value {
        Some(Value::Data(bytes)) => match size {
            Some(size) => size != bytes.len() as u64,
            None => true,
        },
        _ => false,
    }
}

/// Whether the data of a row are of another length than its field's type has.
fn is_unfit_data(kept: &Kept, token: Token) -> bool
    ensures { result ≡ is_unfit_data (value_kept kept.now) token }
{
    is_other_length(data_size(kept, token), kept.value(&Key::Data(token)))
}

/// Whether a resource stands elsewhere than its row says.
fn is_misplaced(elsewhere: bool, value: Option<&Value>) -> bool
    ensures { result ≡ is_misplaced elsewhere (option_copied value.entry) }
{
    match value {
        Some(Value::Resource(resource)) => match resource {
            ResourceValue::Here(_) => elsewhere,
            ResourceValue::Elsewhere(_) => !elsewhere,
        },
        _ => false,
    }
}

/// Whether the row of a resource says that it is elsewhere.
fn has_implementation(kept: &Kept, token: Token) -> bool
    ensures { result ≡ has_implementation (value_kept kept.now) token }
{
    match row_held(kept, token) {
        Some(row) => token_named(row, b"Implementation").is_some(),
        None => false,
    }
}

/// Whether the resource of a row stands elsewhere than the row says.
fn is_unfit_resource(kept: &Kept, token: Token) -> bool
    ensures { result ≡ is_unfit_resource (value_kept kept.now) token }
{
    is_misplaced(
        has_implementation(kept, token),
        kept.value(&Key::Resource(token)),
    )
}

/// The first method of these that is unfit.
fn unfit_method(kept: &Kept, rows: &[Token]) -> Option<Token>
    ensures { result ≡ find (is_unfit_method (value_kept kept.now)) rows.now }
{
    for row in rows {
        if is_unfit_method(kept, *row) {
            return Some(*row);
        }
    }
    None
}

/// The first FieldRVA row of these that is unfit.
fn unfit_data(kept: &Kept, rows: &[Token]) -> Option<Token>
    ensures { result ≡ find (is_unfit_data (value_kept kept.now)) rows.now }
{
    for row in rows {
        if is_unfit_data(kept, *row) {
            return Some(*row);
        }
    }
    None
}

/// The first ManifestResource row of these that is unfit.
fn unfit_resource(kept: &Kept, rows: &[Token]) -> Option<Token>
    ensures { result ≡ find (is_unfit_resource (value_kept kept.now)) rows.now }
{
    for row in rows {
        if is_unfit_resource(kept, *row) {
            return Some(*row);
        }
    }
    None
}

/// The first row that is unfit: methods, then data, then resources.
fn unfit(kept: &Kept, rows: &KeptRows) -> Option<Token>
    ensures { result ≡ unfit (value_kept kept.now) rows.now }
{
    if let Some(token) = unfit_method(kept, rows.of_table(table::METHOD_DEF).as_slice()) {
        return Some(token);
    }
    if let Some(token) = unfit_data(kept, rows.of_table(table::FIELD_RVA).as_slice()) {
        return Some(token);
    }
    unfit_resource(kept, rows.of_table(table::MANIFEST_RESOURCE).as_slice())
}

/// Refuses a row that is unfit.
pub(crate) fn refuse_unfit(kept: &Kept, rows: &KeptRows) -> Result<(), WriteRefusal>
    ensures { Refuses (option_map Unfit (unfit (value_kept kept.now) rows.now)) result }
{
    match unfit(kept, rows) {
        Some(token) => Err(WriteRefusal::Unfit(token)),
        None => Ok(()),
    }
}
