//! The parts of a handler that a command adds, each read into its place. What reads one answers whether the value is of
//! its kind.

ghost use Rattle.std.specs.Prelude.{◌≡◌, []};
ghost use Rattle.job_text.specs.ArgumentValues.{given_kind};
ghost use Rattle.job_text.specs.Args.{if_fits, with_argument};
ghost use Rattle.job_text.specs.declared.form.ArgumentKind.TheVariants as kinds;
ghost use Rattle.serde_json.specs.View.{view};

use crate::args::Args;
use crate::argument::given_u32;
use crate::command::Command;
use crate::handler::{kind_named, kind_with};
use crate::values::given_text;
use il_code::HandlerKind;
use serde_json::Value;

/// The kind of handler that a text names.
#[tactic(auto, unfolding(crate::specs::ArgumentValues::given_kind))]
fn given_kind(value: &Value) -> Option<HandlerKind>
    ensures { result ≡ given_kind (view value.now) }
{
    kind_named(given_text(value)?)
}

/// What a handler is for.
#[tactic(auto, unfolding(crate::specs::Args::with_argument))]
pub(crate) fn read_handler_kind(args: &mut Args, value: &Value) -> bool
    ensures { if_fits result args.new ≡ with_argument 0 [] kinds.HandlerKind args.old (view value.now) }
{
    match given_kind(value) {
        Some(kind) => {
            args.handler.kind = kind;
            true
        }
        None => false,
    }
}

/// Where the protected range begins.
#[tactic(auto, unfolding(crate::specs::Args::with_argument))]
pub(crate) fn read_try_start(args: &mut Args, value: &Value) -> bool
    ensures { if_fits result args.new ≡ with_argument 0 [] kinds.TryStart args.old (view value.now) }
{
    match given_u32(value) {
        Some(place) => {
            args.handler.try_start = place;
            true
        }
        None => false,
    }
}

/// Where the protected range ends.
#[tactic(auto, unfolding(crate::specs::Args::with_argument))]
pub(crate) fn read_try_end(args: &mut Args, value: &Value) -> bool
    ensures { if_fits result args.new ≡ with_argument 0 [] kinds.TryEnd args.old (view value.now) }
{
    match given_u32(value) {
        Some(place) => {
            args.handler.try_end = place;
            true
        }
        None => false,
    }
}

/// Where the handler begins.
#[tactic(auto, unfolding(crate::specs::Args::with_argument))]
pub(crate) fn read_handler_start(args: &mut Args, value: &Value) -> bool
    ensures { if_fits result args.new ≡ with_argument 0 [] kinds.HandlerStart args.old (view value.now) }
{
    match given_u32(value) {
        Some(place) => {
            args.handler.start = place;
            true
        }
        None => false,
    }
}

/// Where the handler ends.
#[tactic(auto, unfolding(crate::specs::Args::with_argument))]
pub(crate) fn read_handler_end(args: &mut Args, value: &Value) -> bool
    ensures { if_fits result args.new ≡ with_argument 0 [] kinds.HandlerEnd args.old (view value.now) }
{
    match given_u32(value) {
        Some(place) => {
            args.handler.end = place;
            true
        }
        None => false,
    }
}

/// The type or the filter of a handler.
#[tactic(auto, unfolding(crate::specs::Args::with_argument))]
pub(crate) fn read_handler_with(before: &[Command], args: &mut Args, value: &Value) -> bool
    ensures { if_fits result args.new ≡ with_argument 0 before.now kinds.HandlerWith args.old (view value.now) }
{
    match kind_with(args.module, before, args.handler.kind, value) {
        Some(kind) => {
            args.handler.kind = kind;
            true
        }
        None => false,
    }
}
