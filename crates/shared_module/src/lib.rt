//! A core that many callers share: each asks and edits by turns of its own, and each answer is told with the point of
//! the core's one history at which it is true. What a caller needs is decoded between its turns.
#![tactic(auto)]

mod ask;
mod decoder;
mod edit;
mod laws;
mod meet_gate;
mod shared;
mod turns;

pub use ask::Answer;
pub use decoder::Decoder;
pub use edit::Edited;
pub use laws::modules_are_shared;
pub use meet_gate::MeetGate;
pub use shared::{Pass, SharedModule};
