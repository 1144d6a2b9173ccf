//! What a job says is written.

ghost use Rattle.std.specs.Prelude.{◌≡◌, ◌<◌, ◌^◌, ℕ, List, [], IfOk, IfSome, OnOk, bytes_eq, codes, cond, map, not, true};
ghost use Rattle.std.specs.BTreeSet.{contains_text};
ghost use Rattle.std.specs.List.{list_all};
ghost use Rattle.job_text.specs.Job.{given_write};
ghost use Rattle.job_text.specs.Shape.{all_new, are_writes, gives_name, gives_write, write_name};
ghost use Rattle.job_text.specs.Values.{member, given_number};
ghost use Rattle.serde_json.specs.View.{view};

use crate::job::Write;
use crate::shape::gives_name;
use crate::values::{given_number, given_text, member_count};
use cil_base::{List, NoMemory};
use serde_json::Value;
use std::alloc::Global;
use std::collections::BTreeSet;

/// Whether a job may write images.
const WRITES_IMAGES: bool = false;

/// The number of the module that an object names.
#[tactic(auto, unfolding(crate::specs::Values::member, crate::specs::Values::given_number))]
fn module_in(value: &Value, modules: usize) -> Option<u64>
    ensures same { result ≡ given_number modules (member (codes "module") (view value.now)) }
    ensures below { IfSome result (λ number. number < modules) }
{
    match value.get("module") {
        Some(number) => given_number(number, modules as u64),
        None => None,
    }
}

/// Whether an object gives a file's name as what is written.
#[tactic(auto, unfolding(crate::specs::Values::member, crate::specs::Shape::gives_name, crate::specs::Values::given_text))]
fn gives_own_name(value: &Value) -> bool
    ensures { result ≡ gives_name (member (codes "as") (view value.now)) }
{
    match value.get("as") {
        Some(name) => gives_name(name),
        None => false,
    }
}

/// Whether a value says what is written: it has two members, a module's number and a name.
#[tactic(auto, unfolding(crate::specs::Shape::gives_write))]
fn gives_write(value: &Value, modules: usize) -> bool
    ensures { result ≡ gives_write modules (view value.now) }
{
    member_count(value) == 2 && module_in(value, modules).is_some() && gives_own_name(value)
}

/// Whether values say what is written.
fn give_writes(values: &[Value], modules: usize) -> bool
    ensures { result ≡ list_all (gives_write modules) (map view values.now) }
{
    for value in values {
        if !gives_write(value, modules) {
            return false;
        }
    }
    true
}

/// The name that an object gives; empty where it gives none.
#[tactic(auto, unfolding(crate::specs::Values::member, crate::specs::Shape::given_name, crate::specs::Values::given_text))]
fn write_name(value: &Value) -> &str
    ensures { result.now ≡ write_name (view value.now) }
{
    match value.get("as") {
        Some(name) => given_text(name).unwrap_or(""),
        None => "",
    }
}

/// Keeps a name among those seen, and answers whether it is new.
fn keep(alloc: Global, seen: &mut BTreeSet<String>, name: &str) -> Result<bool, NoMemory>
    ensures new { IfOk result (λ new. new ≡ not (contains_text seen.old name.now)) }
    ensures kept { OnOk result ((q : List ℕ) → contains_text seen.new q ≡ cond (bytes_eq name.now q) true (contains_text seen.old q)) }
{
    let key = String::from_str(alloc, name)?;
    let new = seen.insert(key)?;
    Ok(new)
}

/// Whether no two objects give the same name.
fn all_new(alloc: Global, writes: &[Value]) -> Result<bool, NoMemory>
    ensures { IfOk result (λ new. new ≡ all_new [] (map write_name (map view writes.now))) }
{
    let mut seen = BTreeSet::new(alloc);
    for write in writes {
        if !keep(alloc, &mut seen, write_name(write))? {
            return Ok(false);
        }
    }
    Ok(true)
}

/// Whether values say what a job writes, each under another name.
#[tactic(auto, unfolding(crate::specs::Shape::are_writes))]
pub(crate) fn are_writes(alloc: Global, values: &[Value], modules: usize) -> Result<bool, NoMemory>
    ensures { IfOk result (λ are. are ≡ are_writes modules (map view values.now)) }
{
    if !WRITES_IMAGES && !values.is_empty() {
        return Ok(false);
    }
    if !give_writes(values, modules) {
        return Ok(false);
    }
    all_new(alloc, values)
}

/// What an object says is written.
#[tactic(auto, unfolding(crate::specs::Job::given_write))]
fn given_write(alloc: Global, modules: usize, value: &Value) -> Result<Write, NoMemory>
    requires { modules < 2 ^ 32 }
    ensures { IfOk result (λ write. write ≡ given_write modules (view value.now)) }
{
    let module = match module_in(value, modules) {
        Some(number) => number as u32,
        None => 0,
    };
    let name = List::from_slice(alloc, write_name(value).as_bytes())?;
    Ok(Write { module, name })
}

/// What the values say is written.
pub(crate) fn writes_in(
    alloc: Global,
    modules: usize,
    values: &[Value],
) -> Result<List<Write>, NoMemory>
    requires { modules < 2 ^ 32 }
    ensures { IfOk result (λ writes. writes ≡ map (given_write modules) (map view values.now)) }
{
    let mut writes = List::new(alloc);
    for value in values {
        writes.push(given_write(alloc, modules, value)?)?;
    }
    Ok(writes)
}
