ghost use Rattle.std.specs.Prelude.{◌≡◌, ◌<◌, All, IfOk, IfSome};
ghost use Rattle.std.specs.Thread.{IsSync};
ghost use Rattle.turn_lock.specs.Passes.{IsPassOf, fresh_passes, AreAllOf, AreBack};

use crate::{Chronicle, Held, Pass, TurnLock};
use cil_base::{List, NoMemory};
use std::alloc::Global;
use std::sync::Wait;
use std::test::Fail;
use std::thread;
use std::thread::Threads;

/// A state that is a list of callers' numbers, one for each entry.
#[derive(Drop)]
struct Numbers {
    callers: Vec<u32>,
}

impl Chronicle for Numbers {
    type Base = ();

    type Entry = u32;

    ghost base = { λ _. tt };

    ghost entries = { λ s. s.callers.items };

    ghost caller = { λ e. e };

    fn count(&self) -> u64 {
        self.callers.len() as u64
    }
}

fn may_be_shared<T: Sync>() {}

fn may_move<T: Send>() {}

// A lock goes to threads by reference, and what it hands out goes from thread to thread, for every state that may move.
fn shares_and_moves<S: Chronicle + Send>() {
    may_be_shared::<TurnLock<S>>();
    may_move::<TurnLock<S>>();
    may_move::<Pass<S>>();
    may_move::<Held<S>>();
}

// One turn, with one entry.
fn take_turn<R: Wait>(rt: &R, lock: &TurnLock<Numbers>, pass: Pass<Numbers>) -> Pass<Numbers>
    requires { IsPassOf lock.now pass }
    ensures same { IsPassOf lock.now result × (result.number ≡ pass.number) }
{
    let number = pass.number();
    let mut held = lock.enter(rt, pass);
    let _made = held.state_mut().callers.push(number);
    lock.leave(held)
}

fn take_turns<R: Wait>(
    rt: &R,
    lock: &TurnLock<Numbers>,
    mut pass: Pass<Numbers>,
    turns: u32,
) -> Pass<Numbers>
    requires { IsPassOf lock.now pass }
    ensures same { IsPassOf lock.now result × (result.number ≡ pass.number) }
{
    for _ in 0..turns {
        pass = take_turn(rt, lock, pass);
    }
    pass
}

// Each caller takes so many turns, in a thread of its own. Answers the callers' numbers, turn by turn.
fn in_threads<R: Threads + Wait + Sync>(
    rt: &R,
    alloc: Global,
    callers: u32,
    turns: u32,
) -> Result<Vec<u32>, Fail>
    requires { 0 < callers }
{
    let state = Numbers {
        callers: Vec::new(alloc),
    };
    let (lock, passes) = TurnLock::open(alloc, state, callers)?;
    let back = run_all(rt, &lock, passes, turns)?;
    let Numbers { callers } = lock.close(back);
    Ok(callers)
}

fn run_all<R: Threads + Wait + Sync>(
    rt: &R,
    lock: &TurnLock<Numbers>,
    passes: List<Pass<Numbers>>,
    turns: u32,
) -> Result<List<Pass<Numbers>>, Fail>
    requires { All (IsPassOf lock.now) passes }
    ensures { IfOk result (λ back. AreBack lock.now passes back) }
{
    let back = thread::map_vec(
        rt,
        passes.into_vec(),
        &|pass: Pass<Numbers>| -> Pass<Numbers>
            requires { IsSync R.row × IsPassOf lock.now pass }
            ensures { IsPassOf lock.entry.now result × (result.number ≡ pass.number) }
        { take_turns(rt, lock, pass, turns) },
    )?;
    Ok(List::from_vec(back))
}

// The passes of a lock for two callers, by number.
fn both(
    lock: &TurnLock<Numbers>,
    mut passes: List<Pass<Numbers>>,
) -> Option<(Pass<Numbers>, Pass<Numbers>)>
    requires { (lock.now.callers ≡ 2) × (passes ≡ fresh_passes lock.now) }
    ensures first { IfSome result (λ r. IsPassOf lock.now r.0 × (r.0.number ≡ 0)) }
    ensures second { IfSome result (λ r. IsPassOf lock.now r.1 × (r.1.number ≡ 1)) }
{
    let second = passes.pop()?;
    let first = passes.pop()?;
    Some((first, second))
}

// Both passes again in a list.
fn together(
    alloc: Global,
    lock: &TurnLock<Numbers>,
    first: Pass<Numbers>,
    second: Pass<Numbers>,
) -> Result<List<Pass<Numbers>>, NoMemory>
    requires callers { lock.now.callers ≡ 2 }
    requires first { IsPassOf lock.now first × (first.number ≡ 0) }
    requires second { IsPassOf lock.now second × (second.number ≡ 1) }
    ensures { IfOk result (λ passes. AreAllOf lock.now passes) }
{
    let mut passes = List::new(alloc);
    passes.push(first)?;
    passes.push(second)?;
    Ok(passes)
}

#[test]
fn one_thread_takes_turns_with_two_passes(rt: HostRuntime) -> Result<(), Fail> {
    shares_and_moves::<Numbers>();
    let state = Numbers {
        callers: Vec::new(rt.alloc()),
    };
    let (lock, passes) = TurnLock::open(rt.alloc(), state, 2)?;
    let Some((first, second)) = both(&lock, passes) else {
        panic!(rt; "there are two passes")
    };
    let first = take_turn(&rt, &lock, first);
    assert_eq!(rt;
        (first.number(), first.seen()),
        (0, 1),
        "pass 0 has seen its own entry"
    );
    let held = lock.enter(&rt, second);
    assert_eq!(rt;
        held.state().callers.as_slice(),
        [0].as_slice(),
        "pass 1 finds one entry"
    );
    let second = lock.leave(held);
    let second = take_turns(&rt, &lock, second, 2);
    assert_eq!(rt;
        (second.number(), second.seen()),
        (1, 3),
        "pass 1 has seen all three"
    );
    let passes = together(rt.alloc(), &lock, first, second)?;
    let closed = lock.close(passes);
    assert_eq!(rt; closed.callers.as_slice(), [0, 1, 1].as_slice());
    Ok(())
}

// How many of the entries are of one caller.
fn entries_of(entries: &[u32], caller: u32) -> usize {
    entries.iter().filter(|e| **e == caller).count()
}

#[test]
fn each_caller_has_as_many_entries_as_turns(rt: HostRuntime) -> Result<(), Fail> {
    let entries = in_threads(&rt, rt.alloc(), 2, 1000)?;
    assert_eq!(rt; entries.len(), 2000, "two threads");
    assert_eq!(rt; entries_of(&entries, 0), 1000, "caller 0 of two");
    assert_eq!(rt; entries_of(&entries, 1), 1000, "caller 1 of two");
    let entries = in_threads(&rt, rt.alloc(), 8, 250)?;
    assert_eq!(rt; entries.len(), 2000, "eight threads");
    for caller in 0..8 {
        assert_eq!(rt;
            entries_of(&entries, caller),
            250,
            "caller {caller} of eight"
        );
    }
    Ok(())
}
