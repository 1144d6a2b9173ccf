use crate::decoder::Decoder;
use cil_base::NoMemory;
use cil_outside::{Gate, GatePoint};
use node_model::{Key, Slot};
use node_read::{Image, read_key};
use std::alloc::Global;
use std::sync::atomic::{AtomicBool, Ordering};
use std::thread;

/// A decoder in which the actors 0 and 1 wait for each other, which shows that both decode at once. What it tells is
/// shown by tests alone, since no contract speaks of a word that threads share.
#[derive(Drop)]
pub struct MeetGate {
    limit: u64,
    first_came: AtomicBool,
    second_came: AtomicBool,
    limit_reached: AtomicBool,
}

impl MeetGate {
    /// A gate at which each of the two looks at most `limit` times whether the other came. Takes no memory.
    pub fn new(limit: u64) -> MeetGate {
        MeetGate {
            limit,
            first_came: AtomicBool::new(false),
            second_came: AtomicBool::new(false),
            limit_reached: AtomicBool::new(false),
        }
    }

    /// Whether both came, and neither had to go on without the other. Takes no memory.
    pub fn met(&self) -> bool {
        self.first_came.load(Ordering::SeqCst)
            && self.second_came.load(Ordering::SeqCst)
            && !self.limit_reached.load(Ordering::SeqCst)
    }

    /// Tells that one came, and waits for the other.
    fn meet(&self, own: &AtomicBool, other: &AtomicBool) {
        own.store(true, Ordering::SeqCst);
        for _ in 0..self.limit {
            if other.load(Ordering::SeqCst) {
                return;
            }
            thread::yield_now();
        }
        self.limit_reached.store(true, Ordering::SeqCst);
    }
}

impl Gate for MeetGate {
    fn at(&self, _actor: u32, _command: u32, _point: GatePoint) {}
}

impl Decoder for MeetGate {
    fn slot(
        &self,
        alloc: Global,
        actor: u32,
        _command: u32,
        image: &Image,
        key: &Key,
    ) -> Result<Slot, NoMemory> {
        let slot = read_key(alloc, image, key)?;
        match actor {
            0 => self.meet(&self.first_came, &self.second_came),
            1 => self.meet(&self.second_came, &self.first_came),
            _ => {}
        }
        Ok(slot)
    }
}
