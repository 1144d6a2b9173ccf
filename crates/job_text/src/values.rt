//! What a job asks of a JSON value.

ghost use Rattle.std.specs.Prelude.{◌≡◌, ◌<◌, ◌≤ℤ◌, map, option_map, IfSome};
ghost use Rattle.job_text.specs.Values.{given_flag, given_integer, is_null, given_list, member_count, given_number, given_text};
ghost use Rattle.serde_json.specs.View.{view};

use serde_json::Value;

/// The items of a list, in order. None exactly where the value is no list.
#[tactic(auto, using(crate::proofs::ValueLemmas::list_of_items), unfolding(crate::specs::Values::given_list))]
pub(crate) fn given_list(value: &Value) -> Option<&[Value]>
    ensures { option_map (λ items. map view items.now) result ≡ given_list (view value.now) }
{
    match value.as_array() {
        Some(items) => Some(items.as_slice()),
        None => None,
    }
}

/// The text. None exactly where the value is no text.
#[tactic(auto, unfolding(crate::specs::Values::given_text))]
pub(crate) fn given_text(value: &Value) -> Option<&str>
    ensures { option_map (λ text. text.now) result ≡ given_text (view value.now) }
{
    value.as_str()
}

/// The bytes of a text. None exactly where the value is no text.
#[tactic(auto, unfolding(crate::specs::Values::given_text))]
pub(crate) fn given_text_bytes(value: &Value) -> Option<&[u8]>
    ensures { option_map (λ text. text.now) result ≡ given_text (view value.now) }
{
    match value.as_str() {
        Some(text) => Some(text.as_bytes()),
        None => None,
    }
}

/// Whether the value is null.
#[tactic(auto, unfolding(crate::specs::Values::is_null))]
pub(crate) fn is_null(value: &Value) -> bool
    ensures { result ≡ is_null (view value.now) }
{
    value.is_null()
}

/// True or false. None exactly where the value is neither.
#[tactic(auto, unfolding(crate::specs::Values::given_flag))]
pub(crate) fn given_flag(value: &Value) -> Option<bool>
    ensures { result ≡ given_flag (view value.now) }
{
    value.as_bool()
}

/// The number, where it is from 0 on and below `bound`. None exactly where the value is no such number.
#[tactic(auto, unfolding(crate::specs::Values::given_number))]
pub(crate) fn given_number(value: &Value, bound: u64) -> Option<u64>
    ensures same { result ≡ given_number bound (view value.now) }
    ensures below { IfSome result (λ number. number < bound) }
{
    match value.as_u64() {
        Some(number) => { if number < bound { Some(number) } else { None } }
        None => None,
    }
}

/// The number, where it is from `low` to `high`. None exactly where the value is no such number.
#[tactic(auto, unfolding(crate::specs::Values::given_integer))]
pub(crate) fn given_integer(value: &Value, low: i64, high: i64) -> Option<i64>
    ensures same { result ≡ given_integer low high (view value.now) }
    ensures between { IfSome result (λ number. (low ≤ℤ number) × (number ≤ℤ high)) }
{
    match value.as_i64() {
        Some(number) => {
            if number < low {
                None
            } else if high < number {
                None
            } else {
                Some(number)
            }
        }
        None => None,
    }
}

/// How many members an object has; 0 for another value.
#[tactic(auto, unfolding(crate::specs::Values::member_count))]
pub(crate) fn member_count(value: &Value) -> usize
    ensures { result ≡ member_count (view value.now) }
{
    match value.as_object() {
        Some(members) => members.len(),
        None => 0,
    }
}
