//! A lock that hands one state to one caller at a time, by tickets, and keeps the history that the state tells.
#![tactic(auto)]

mod chronicle;
mod close;
mod enter;
mod held;
mod idle_seat;
mod leave;
mod lock;
mod open;
mod pass;
mod plays;
#[cfg(test)]
mod tests;
mod view;

pub use chronicle::Chronicle;
pub use held::Held;
pub use lock::TurnLock;
pub use pass::Pass;
