//! Whether a JSON value has the form of a job.

ghost use Rattle.std.specs.Prelude.{◌≡◌, ◌==◌, ◌||◌, IfOk, map};
ghost use Rattle.std.specs.List.{list_all, list_any};
ghost use Rattle.job_text.specs.Shape.{are_parts, gives_name, has_parts, is_file_name, is_job, is_list, items};
ghost use Rattle.job_text.specs.Values.{member};
ghost use Rattle.serde_json.specs.View.{view};

use crate::values::{given_list, given_text, member_count};
use crate::write::are_writes;
use cil_base::NoMemory;
use serde_json::Value;
use std::alloc::Global;

/// Whether a value is a list.
#[tactic(auto, unfolding(crate::specs::Shape::is_list))]
fn is_list(value: &Value) -> bool
    ensures { result ≡ is_list (view value.now) }
{
    given_list(value).is_some()
}

/// Whether an object has a list of that name.
#[tactic(auto, unfolding(crate::specs::Shape::is_list, crate::specs::Values::member, crate::specs::Values::given_list))]
fn has_list(value: &Value, name: &str) -> bool
    ensures { result ≡ is_list (member name.now (view value.now)) }
{
    match value.get(name) {
        Some(found) => is_list(found),
        None => false,
    }
}

/// The items of a list; none of another value.
#[tactic(auto, unfolding(crate::specs::Shape::items))]
pub(crate) fn items(value: &Value) -> &[Value]
    ensures { map view result.now ≡ items (view value.now) }
{
    match given_list(value) {
        Some(items) => items,
        None => &[],
    }
}

/// The items of an object's list of that name.
#[tactic(auto, unfolding(crate::specs::Values::member, crate::specs::Shape::items, crate::specs::Values::given_list))]
pub(crate) fn member_items<'a>(value: &'a Value, name: &str) -> &'a [Value]
    ensures { map view result.now ≡ items (member name.now (view value.now)) }
{
    match value.get(name) {
        Some(found) => items(found),
        None => &[],
    }
}

/// Whether a `/` or a zero byte stands among bytes.
fn has_barred_byte(bytes: &[u8]) -> bool
    ensures { result ≡ list_any (λ c. (c == 0x2f) || (c == 0)) bytes.now }
{
    bytes.iter().any(|byte| *byte == b'/' || *byte == 0)
}

/// Whether a text may name a file: it is not empty, not `.` or `..`, and has no `/` and no zero byte.
#[tactic(auto, unfolding(crate::specs::Shape::is_file_name))]
pub fn is_file_name(name: &str) -> bool
    ensures { result ≡ is_file_name name.now }
{
    let bytes = name.as_bytes();
    if bytes == b"".as_slice() || bytes == b".".as_slice() || bytes == b"..".as_slice() {
        return false;
    }
    !has_barred_byte(bytes)
}

/// Whether a value is a text that may name a file.
#[tactic(auto, unfolding(crate::specs::Shape::gives_name))]
pub(crate) fn gives_name(value: &Value) -> bool
    ensures { result ≡ gives_name (view value.now) }
{
    match given_text(value) {
        Some(text) => is_file_name(text),
        None => false,
    }
}

/// Whether values name files.
fn are_names(values: &[Value]) -> bool
    ensures { result ≡ list_all gives_name (map view values.now) }
{
    for value in values {
        if !gives_name(value) {
            return false;
        }
    }
    true
}

/// Whether values are lists.
fn are_lists(values: &[Value]) -> bool
    ensures { result ≡ list_all is_list (map view values.now) }
{
    for value in values {
        if !is_list(value) {
            return false;
        }
    }
    true
}

/// Whether a value has the members of a job, each a list.
fn has_parts(value: &Value) -> bool
    ensures { result ≡ has_parts (view value.now) }
{
    member_count(value) == 3
        && has_list(value, "modules")
        && has_list(value, "actors")
        && has_list(value, "write")
}

/// Whether lists are those of a job: names of files, lists of commands, and what is written.
fn are_parts(
    alloc: Global,
    modules: &[Value],
    actors: &[Value],
    writes: &[Value],
) -> Result<bool, NoMemory>
    ensures { IfOk result (λ are. are ≡ are_parts (map view modules.now) (map view actors.now) (map view writes.now)) }
{
    if !are_names(modules) || !are_lists(actors) {
        return Ok(false);
    }
    are_writes(alloc, writes, modules.len())
}

/// Whether a value has the form of a job.
#[tactic(auto, unfolding(crate::specs::Shape::is_job))]
pub(crate) fn is_job(alloc: Global, value: &Value) -> Result<bool, NoMemory>
    ensures { IfOk result (λ is. is ≡ is_job (view value.now)) }
{
    if !has_parts(value) {
        return Ok(false);
    }
    are_parts(
        alloc,
        member_items(value, "modules"),
        member_items(value, "actors"),
        member_items(value, "write"),
    )
}
