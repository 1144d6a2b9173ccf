//! References that are followed, and attributes that are read: each question is asked of the module that it names.
ghost use Rattle.std.specs.Prelude.{◌≡◌, ◌<◌, ◌∷◌, ◌++◌, [], IfOk, OnOk, Some, length, slice_get};
ghost use Rattle.resolver.specs.Inquiry.{next_of, with_reply};
ghost use Rattle.resolver.specs.declared.next.Next.TheVariants.{Question};
ghost use Rattle.cecil_top.specs.Acts.{asked_acts};
ghost use Rattle.cecil_top.specs.Following.{IsFollowed};
ghost use Rattle.cecil_top.specs.declared.said.Asked.{Asked};
ghost use Rattle.cecil_top.specs.inner.Passes.{AddsActs, HasPasses};
ghost use Rattle.cecil_top.specs.inner.Questions.{IsAskedMore};

use crate::command::do_query;
use crate::said::{Asked, Resolution};
use cil_base::{List, NoMemory};
use node_model::{Query, Reply};
use resolver::{Ask, Next};
use shared_module::{Answer, Decoder, Pass, SharedModule};
use std::alloc::Global;
use std::sync::Wait;

/// A copy of the reply to the question of that number.
fn copy_reply(alloc: Global, asked: &[Asked], step: usize) -> Result<Reply, NoMemory>
    requires { step < length asked.now }
    ensures { IfOk result (λ r. (x : Asked) → slice_get asked.now step ≡ Some x → r ≡ x.answer.reply) }
{
    asked[step].answer.reply.copy(alloc)
}

/// Puts a question with its answer behind the others, and gives the reply to the inquiry. Asks that it is the inquiry's
/// next question.
fn keep_answer(
    alloc: Global,
    ask: &mut Ask,
    asked: &mut List<Asked>,
    home: u32,
    query: Query,
    answer: Answer,
) -> Result<(), NoMemory>
    requires next { next_of ask.old ≡ Question home query }
    ensures asked { OnOk result (asked.new ≡ asked.old ++ record { home = home; query = query; answer = answer } ∷ []) }
    ensures ask { OnOk result (ask.new ≡ with_reply ask.old answer.reply) }
{
    let step = asked.len();
    asked.push(Asked {
        home,
        query,
        answer,
    })?;
    let reply = copy_reply(alloc, asked.as_slice(), step)?;
    ask.answered(reply)
}

/// Asks a question, as the step of that number of the command of number `place`, and keeps its answer.
fn ask_one<R: Wait, G: Decoder>(
    rt: &R,
    alloc: Global,
    modules: &[SharedModule],
    actor: u32,
    place: u32,
    home: u32,
    query: Query,
    ask: &mut Ask,
    asked: &mut List<Asked>,
    passes: &mut List<Option<Pass>>,
    gate: &G,
) -> Result<(), NoMemory>
    requires passes { HasPasses modules.now actor passes.old }
    requires home { home < length modules.now }
    requires next { next_of ask.old ≡ Question home query }
    ensures passes { HasPasses modules.now actor passes.new }
    ensures more { OnOk result (IsAskedMore modules.now actor place home query ask.old ask.new asked.old asked.new
        passes.old passes.new) }
{
    let step = asked.len() as u64;
    let answer = do_query(
        rt, alloc, modules, actor, place, step, home, &query, passes, gate,
    );
    match answer {
        Ok(answer) => keep_answer(alloc, ask, asked, home, query, answer),
        Err(NoMemory) => Err(NoMemory),
    }
}

/// Asks all questions of an inquiry, up to its end.
fn ask_all<R: Wait, G: Decoder>(
    rt: &R,
    alloc: Global,
    modules: &[SharedModule],
    actor: u32,
    place: u32,
    ask: &mut Ask,
    asked: &mut List<Asked>,
    passes: &mut List<Option<Pass>>,
    gate: &G,
) -> Result<Next, NoMemory>
    requires passes { HasPasses modules.now actor passes.old }
    requires modules { ask.old.start.modules ≡ length modules.now }
    requires home { ask.old.start.home < length modules.now }
    requires none { (ask.old.transcript ≡ []) × (asked.old ≡ []) }
    ensures passes { HasPasses modules.now actor passes.new }
    ensures followed { IfOk result (λ end. IsFollowed ask.old.start (record { asked = asked.new; end = end })) }
    ensures acts { IfOk result (λ end. AddsActs modules.now actor (asked_acts place 0 asked.new) passes.old passes.new) }
{
    for _ in rt.forever() {
        match ask.next()? {
            Next::Question {
                module: home,
                query,
            } => ask_one(
                rt, alloc, modules, actor, place, home, query, ask, asked, passes, gate,
            )?,
            end => return Ok(end),
        }
    }
    unreachable!()
}

/// Follows a reference or reads an attribute, as the command of number `place`.
pub(crate) fn follow<R: Wait, G: Decoder>(
    rt: &R,
    alloc: Global,
    modules: &[SharedModule],
    actor: u32,
    place: u32,
    mut ask: Ask,
    passes: &mut List<Option<Pass>>,
    gate: &G,
) -> Result<Resolution, NoMemory>
    requires passes { HasPasses modules.now actor passes.old }
    requires modules { ask.start.modules ≡ length modules.now }
    requires home { ask.start.home < length modules.now }
    requires none { ask.transcript ≡ [] }
    ensures passes { HasPasses modules.now actor passes.new }
    ensures followed { IfOk result (IsFollowed ask.start) }
    ensures acts { IfOk result (λ r. AddsActs modules.now actor (asked_acts place 0 r.asked) passes.old passes.new) }
{
    let mut asked = List::new(alloc);
    let end = ask_all(
        rt, alloc, modules, actor, place, &mut ask, &mut asked, passes, gate,
    )?;
    Ok(Resolution { asked, end })
}
