ghost use Rattle.cil_outside.specs.HoldGate.{IsHold};

use crate::gate::{Gate, GatePoint};
use std::sync::atomic::{AtomicBool, Ordering};
use std::thread;

/// A gate that holds one command of one actor where it needs a key, until a command of another was answered. What it
/// tells of its runs is shown by tests alone, since no contract speaks of a word that threads share.
#[derive(Drop)]
pub struct HoldGate {
    held: (u32, u32),
    until: (u32, u32),
    limit: u64,
    was_held: AtomicBool,
    held_answered: AtomicBool,
    until_answered: AtomicBool,
    limit_reached: AtomicBool,
}

impl HoldGate {
    /// A gate that holds `held_command` of `held_actor` at Wanted until `until_command` of `until_actor` was answered,
    /// or until it has looked `limit` times whether it was. Takes no memory.
    pub fn new(
        held_actor: u32,
        held_command: u32,
        until_actor: u32,
        until_command: u32,
        limit: u64,
    ) -> HoldGate
        ensures { IsHold result (held_actor, held_command) (until_actor, until_command) limit }
    {
        HoldGate {
            held: (held_actor, held_command),
            until: (until_actor, until_command),
            limit,
            was_held: AtomicBool::new(false),
            held_answered: AtomicBool::new(false),
            until_answered: AtomicBool::new(false),
            limit_reached: AtomicBool::new(false),
        }
    }

    /// Whether a hold ended by the limit. Takes no memory.
    pub fn reached_limit(&self) -> bool {
        self.limit_reached.load(Ordering::SeqCst)
    }

    /// Whether the command that is held came to Wanted before it was answered. Takes no memory.
    pub fn held(&self) -> bool {
        self.was_held.load(Ordering::SeqCst)
    }

    /// Holds the caller.
    fn hold(&self) {
        if !self.held_answered.load(Ordering::SeqCst) {
            self.was_held.store(true, Ordering::SeqCst);
        }
        for _ in 0..self.limit {
            if self.until_answered.load(Ordering::SeqCst) {
                return;
            }
            thread::yield_now();
        }
        self.limit_reached.store(true, Ordering::SeqCst);
    }

    /// Keeps that a command was answered, where the gate asks for it.
    fn answered(&self, actor: u32, command: u32) {
        if (actor, command) == self.held {
            self.held_answered.store(true, Ordering::SeqCst);
        }
        if (actor, command) == self.until {
            self.until_answered.store(true, Ordering::SeqCst);
        }
    }
}

impl Gate for HoldGate {
    fn at(&self, actor: u32, command: u32, point: GatePoint) {
        match point {
            GatePoint::Wanted => {
                if (actor, command) == self.held {
                    self.hold();
                }
            }
            GatePoint::Answered => self.answered(actor, command),
        }
    }
}

#[cfg(test)]
mod tests {
    use super::*;
    use crate::gate::OpenGate;
    use std::test::Fail;

    /// Tells a gate by its trait alone.
    fn tell<G: Gate>(gate: &G, actor: u32, point: GatePoint) {
        gate.at(actor, 7, point);
    }

    #[test]
    fn holds_until_the_other_was_answered(rt: HostRuntime) -> Result<(), Fail> {
        tell(&OpenGate, 0, GatePoint::Wanted);
        let free = HoldGate::new(0, 7, 1, 7, 3);
        tell(&free, 1, GatePoint::Wanted);
        assert!(rt; !free.held(), "another is not held");
        tell(&free, 1, GatePoint::Answered);
        tell(&free, 0, GatePoint::Wanted);
        assert!(rt;
            free.held() && !free.reached_limit(),
            "the other was answered"
        );
        let alone = HoldGate::new(0, 7, 1, 7, 3);
        tell(&alone, 0, GatePoint::Wanted);
        assert!(rt;
            alone.held() && alone.reached_limit(),
            "the other never comes"
        );
        let late = HoldGate::new(0, 7, 1, 7, 3);
        tell(&late, 0, GatePoint::Answered);
        tell(&late, 0, GatePoint::Wanted);
        assert!(rt;
            !late.held() && late.reached_limit(),
            "it was answered before"
        );
        Ok(())
    }
}
