//! Laws of whole runs of steps, and that a core may move. Each is the contract of a function that does nothing.

ghost use Rattle.lazy_core.specs.RunLaws.{EachIsAnswered, EachWantStands, RunsStayLegal, SkippedExactly};

use crate::lazy::Core;

/// The answers of `run_steps` stand in the order of the steps: that of each step is what the core answers after the
/// steps before it.
pub fn each_step_is_answered()
    ensures { EachIsAnswered }
{}

/// What each step leaves wanted stands in the place of the step: what the core needs after the steps before it.
pub fn each_want_stands()
    ensures { EachWantStands }
{}

/// A Publish is `Skipped` exactly where the step of its number is no earlier one, or was not told to need a key.
pub fn skipped_exactly()
    ensures { SkippedExactly }
{}

/// From a legal history on, any steps leave a legal one.
pub fn runs_stay_legal()
    ensures { RunsStayLegal }
{}

/// A core may be handed to another thread.
pub fn core_may_move() {
    may_move::<Core>();
}

fn may_move<T: Send>() {}
