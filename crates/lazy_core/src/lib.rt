//! The core of an image: its graph, of which each key is filled when it is first needed, and which is edited in
//! between; and the history of the fills and the edits.
#![tactic(auto)]

mod chronicle;
mod direct;
mod laws;
mod lazy;
mod look;
mod peek;
mod publish;
mod run;
mod slot_reply;
mod step;
mod step_laws;
mod try_edit;
mod turn;
mod wanted;
mod wants;

pub use direct::image_reply;
pub use graph_query::Peek;
pub use laws::{
    faults_are_of_the_file, fills_change_nothing_seen, need_is_wanted, try_need_is_wanted,
    unfilled_is_untouched,
};
pub use lazy::Core;
pub use run::run_steps;
pub use step::{Step, StepAnswer};
pub use step_laws::{
    core_may_move, each_step_is_answered, each_want_stands, runs_stay_legal, skipped_exactly,
};
pub use turn::fill_next;
pub use wanted::{Published, Tried, Wanted};
