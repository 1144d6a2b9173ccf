//! How a lock begins.
ghost use Rattle.std.specs.Prelude.{◌≡◌, ◌+◌, ◌<◌, ◌≤◌, [], map, vec_capacity, IfOk, Some};
ghost use Rattle.std.specs.List.{range_with_len};
ghost use Rattle.turn_lock.specs.Passes.{fresh_passes, new_pass};
ghost use Rattle.turn_lock.specs.Views.{maker_seat};
ghost use Rattle.turn_lock.specs.Seats.{HasGiven};

use crate::chronicle::Chronicle;
use crate::idle_seat::IdleSeat;
use crate::lock::{CALLER_NUMBER, TurnLock};
use crate::pass::Pass;
use crate::plays::{DrawNumber, GiveNumber};
use crate::view::{Board, Owned, Place};
use cil_base::{List, NoMemory};
use std::alloc::Global;
use std::snapshot::Snapshot;

impl<S: Chronicle> TurnLock<S> {
    /// A lock round the state, and a pass for each caller, with the numbers from 0 on in order. There is at least one
    /// caller, and the state has no entry yet. `NoMemory` drops the state.
    pub fn open(
        alloc: Global,
        state: S,
        callers: u32,
    ) -> Result<(TurnLock<S>, List<Pass<S>>), NoMemory>
        requires callers { 0 < callers }
        requires empty { S.entries state ≡ [] }
        ensures lock { IfOk result (λ r. (r.0.callers ≡ callers) × (r.0.base ≡ S.base state)) }
        ensures passes { IfOk result (λ r. r.1 ≡ fresh_passes r.0) }
    {
        let mut passes = Vec::with_capacity(alloc, callers as usize)?;
        let (table, mut maker) = new_table(alloc, state)?;
        fill_passes(&table.shared, &mut maker, callers, &mut passes);
        let lock = TurnLock {
            table,
            maker: IdleSeat::new(maker),
        };
        Ok((lock, List::from_vec(passes)))
    }
}

// A table with the state in its slot and all words 0, and the maker's seat.
fn new_table<S: Chronicle>(alloc: Global, state: S) -> Result<(Owned<S>, Place<S>), NoMemory>
    requires { S.entries state ≡ [] }
    ensures sizes { IfOk result (λ r. (r.0.shared.table_id.words ≡ 4) × (r.0.shared.table_id.slots ≡ 1)) }
    ensures maker { IfOk result (λ r. (r.1.table_id ≡ r.0.shared.table_id) × HasGiven r.1.me 0 × (r.1.me.0.base ≡ Some (S.base state))) }
    ensures base { IfOk result (λ r. S.base r.0.shared.key.value ≡ S.base state) }
{
    let mut slots = Vec::with_capacity(alloc, 1)?;
    let about = Snapshot::of(&state);
    slots.push_reserved(Some(state));
    match Owned::new(alloc, &[0, 0, 0, 0], slots, &about) {
        Ok(made) => Ok(made),
        Err(_) => Err(NoMemory),
    }
}

// A pass for each number below `callers`, in order. There is room for them.
fn fill_passes<S: Chronicle>(
    board: &Board<S>,
    maker: &mut Place<S>,
    callers: u32,
    passes: &mut Vec<Pass<S>>,
)
    requires board { (maker.old.table_id ≡ board.now.table_id) × (board.now.table_id.words ≡ 4) }
    requires maker { HasGiven maker.old.me 0 }
    requires room { (passes.old.items ≡ []) × (callers ≤ vec_capacity passes.old) }
    ensures board { maker.new.table_id ≡ maker.old.table_id }
    ensures maker { HasGiven maker.new.me callers × (maker.new.me.0.base ≡ maker.old.me.0.base) }
    ensures passes { passes.new.items ≡ map (new_pass board.now.table_id maker.old.me.0.base) (range_with_len 0 callers) }
{
    for number in 0..callers {
        passes.push_reserved(draw_pass(board, maker, number));
    }
}

// The pass of the next number.
fn draw_pass<S: Chronicle>(board: &Board<S>, maker: &mut Place<S>, number: u32) -> Pass<S>
    requires board { (maker.old.table_id ≡ board.now.table_id) × (board.now.table_id.words ≡ 4) }
    requires maker { HasGiven maker.old.me number }
    requires small { number + 1 < 4294967296 }
    ensures board { maker.new.table_id ≡ maker.old.table_id }
    ensures maker { HasGiven maker.new.me (number + 1) × (maker.new.me.0.base ≡ maker.old.me.0.base) }
    ensures pass { result ≡ new_pass board.now.table_id maker.old.me.0.base number }
{
    board.fetch_add::<DrawNumber>(maker, CALLER_NUMBER, 1);
    let place: Place<S> = board.split_seat::<GiveNumber>(maker);
    Pass {
        place,
        number,
        seen: 0,
    }
}
