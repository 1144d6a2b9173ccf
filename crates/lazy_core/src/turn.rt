ghost use Rattle.std.specs.Prelude.{◌≡◌, ◌++◌, IfOk, IfSome, OnErr};
ghost use Rattle.lazy_core.specs.Steps.{peeked};
ghost use Rattle.lazy_core.specs.Turns.{IsNeededByNone, fills_next, needed_key};

use crate::laws::need_is_wanted;
use crate::lazy::Core;
use crate::publish::fill;
use crate::run::query_want;
use cil_base::NoMemory;
use graph_query::Peek;
use node_model::{By, Key, Query};
use std::alloc::Global;

/// Fills what a query needs next, for a caller: the first key that it looks at and that is not filled is read from the
/// image, and its entry is added. Gives the key, which no query needs from then on. `None` comes exactly where the
/// query needs no key, and then nothing changes. Any caller may do so at any moment. `NoMemory` adds no entry.
pub fn fill_next(
    alloc: Global,
    core: &mut Core,
    by: By,
    query: &Query,
) -> Result<Option<Key>, NoMemory>
    ensures needed { IfOk result (λ need. need ≡ needed_key (peeked core.old.bytes core.old.history query.now)) }
    ensures filled { IfOk result (λ need. core.new.history
        ≡ core.old.history ++ fills_next by query.now core.old.history need) }
    ensures done { IfOk result (λ need. IfSome need (λ key. IsNeededByNone core.new.bytes core.new.history key)) }
    ensures image { core.new.bytes ≡ core.old.bytes }
    ensures kept { OnErr result (core.new.history ≡ core.old.history) }
{
    let Peek::Need(key) = core.peek(alloc, query)? else {
        return Ok(None);
    };
    // The law gives what `fill` asks for.
    need_is_wanted();
    let wanted = query_want(alloc, core, by, query, &key)?;
    fill(alloc, core, wanted)?;
    Ok(Some(key))
}
