//! What may be shared by threads, and handed from one to another: the bounds of a function that does nothing.

use crate::meet_gate::MeetGate;
use crate::shared::{Pass, SharedModule};

/// Threads may share a module, and each may take passes along.
pub fn modules_are_shared() {
    is_shared::<SharedModule>();
    is_shared::<MeetGate>();
    may_move::<SharedModule>();
    may_move::<Pass>();
}

fn is_shared<T: Sync>() {}

fn may_move<T: Send>() {}
