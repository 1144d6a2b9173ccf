ghost use Rattle.std.specs.Prelude.{◌≡◌, ◌<◌, [], All, Any, IfOk};
ghost use mathlib.Core.List.{IsPrefix};
ghost use Rattle.turn_lock.specs.Passes.{AreAllOf, fresh_passes};
ghost use Rattle.turn_lock.specs.Views.{own};
ghost use Rattle.lazy_core.specs.History.{entry_caller};
ghost use Rattle.lazy_core.specs.Legal.{Legal};

use cil_base::{List, NoMemory};
use lazy_core::Core;
use node_read::Image;
use std::alloc::Global;
use std::marker::Model;
use std::sync::Arc;
use turn_lock::TurnLock;

/// What a caller keeps between two calls: the right to take turns, and the knowledge of the entries that it has seen.
pub type Pass = turn_lock::Pass<Core>;

/// A core that callers share by turns. Contracts see its lock, whose base is the bytes of the core's image.
#[derive(Drop)]
pub struct SharedModule {
    pub(crate) lock: TurnLock<Core>,
    pub(crate) image: Arc<Image>,
}

impl Model for SharedModule {
    ghost use Rattle.std.specs.Prelude.{◌≡◌, ℕ, List};
    ghost use Rattle.turn_lock.specs.Passes.{LockValue};

    ghost Value = { LockValue (List ℕ) };

    ghost view = { λ m. m.lock };

    ghost invariant = { λ m. m.image.value ≡ m.lock.base };
}

impl SharedModule {
    /// A module round a core in which nothing was done yet, and a pass for each of at least one caller, with the
    /// numbers from 0 on in order. `NoMemory` drops the core.
    pub fn open(
        alloc: Global,
        core: Core,
        callers: u32,
    ) -> Result<(SharedModule, List<Pass>), NoMemory>
        requires callers { 0 < callers }
        requires empty { core.history ≡ [] }
        ensures shared { IfOk result (λ r. (r.0.callers ≡ callers) × (r.0.base ≡ core.bytes)) }
        ensures passes { IfOk result (λ r. r.1 ≡ fresh_passes r.0) }
    {
        let image = core.image().clone()?;
        let (lock, passes) = TurnLock::open(alloc, core, callers)?;
        Ok((SharedModule { lock, image }, passes))
    }

    /// Takes all passes back, and gives the core. Its image has the same bytes and its history is legal. What each pass
    /// has seen begins the history; the entries of a pass's number are just those that it has seen, and each entry is
    /// of one of the passes. Takes no memory.
    pub fn close(self, passes: List<Pass>) -> Core
        requires { AreAllOf self passes }
        ensures image { result.bytes ≡ self.base }
        ensures legal { Legal result.bytes result.history }
        ensures seen { All (λ p. IsPrefix p.seen result.history) passes }
        ensures own { All (λ p. own entry_caller p.number result.history ≡ own entry_caller p.number p.seen) passes }
        ensures callers { All (λ e. entry_caller e < self.callers) result.history }
        ensures made { All (λ e. Any (λ p. p.number ≡ entry_caller e) passes) result.history }
    {
        let SharedModule { lock, image: _ } = self;
        let core = lock.close(passes);
        core.has_legal_history();
        core
    }
}
