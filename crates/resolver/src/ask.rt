ghost use Rattle.std.specs.Prelude.{◌≡◌, ◌∷◌, ◌++◌, [], true, IfOk, OnErr, OnOk};
ghost use Rattle.resolver.specs.Inquiry.{is_question, new_inquiry, next_of, with_reply};
ghost use Rattle.resolver.specs.Machine.{advanced};
ghost use Rattle.resolver.specs.declared.start.Sought.TheVariants as soughts;

use crate::exchange::Exchange;
use crate::next::Next;
use crate::questions::{after_reply, state_next};
use crate::start::{Sought, Start, start_state};
use crate::state::{Advance, State};
use cil_base::{Boxed, List, NoMemory, Token};
use node_model::Reply;
use std::alloc::Global;
use std::marker::Model;

/// A reference that is followed, or an attribute that is read, over modules that are known by their numbers alone. It
/// says what it asks next, and takes the replies one by one. Contracts see where it began, and what was asked and
/// replied so far: what comes next follows from these.
#[derive(Drop)]
pub struct Ask {
    start: Start,
    transcript: List<Exchange>,
    state: State,
}

impl Model for Ask {
    ghost use Rattle.std.specs.Prelude.{◌≡◌};
    ghost use Rattle.resolver.specs.Inquiry.{Inquiry};
    ghost use Rattle.sig_tree.specs.contracts.tree.TypeSig as types;
    ghost use Rattle.std.specs.Coded.{codes};

    ghost Value = { Inquiry };

    ghost coded = { Prim.hlevel (codes, types.the_row.coded) };

    ghost use Rattle.resolver.specs.Machine.{state_after};

    ghost view = { λ a. record { start = a.start; transcript = a.transcript } };

    ghost invariant = { λ a. a.state ≡ state_after a.start a.transcript };
}

/// Puts a question and its reply behind the others, and advances. `NoMemory` changes nothing.
fn keep(
    transcript: &mut List<Exchange>,
    state: &mut State,
    exchange: Exchange,
    advance: Boxed<Advance>,
) -> Result<(), NoMemory>
    ensures transcript { OnOk result (transcript.new ≡ transcript.old ++ exchange ∷ []) }
    ensures state { OnOk result (state.new ≡ advanced state.old advance) }
    ensures same_transcript { OnErr result (transcript.new ≡ transcript.old) }
    ensures same_state { OnErr result (state.new ≡ state.old) }
{
    transcript.push(exchange)?;
    match state.advance(advance.into_inner()) {
        Ok(()) => Ok(()),
        Err(error) => {
            let _last = transcript.pop();
            Err(error)
        }
    }
}

impl Ask {
    #[tactic(auto, unfolding(crate::specs::Machine::state_after))]
    fn of(alloc: Global, start: Start) -> Ask
        ensures { result ≡ record { start = start; transcript = [] } }
    {
        let state = start_state(alloc, &start);
        Ask {
            start,
            transcript: List::new(alloc),
            state,
        }
    }

    /// Where a reference of the module `home` leads, over so many modules.
    pub fn resolve(alloc: Global, modules: u32, home: u32, token: Token) -> Ask
        ensures { result ≡ new_inquiry modules home soughts.Reference token }
    {
        Ask::of(
            alloc,
            Start {
                modules,
                home,
                sought: Sought::Reference,
                token,
            },
        )
    }

    /// What an attribute of the module `home` says, over so many modules.
    pub fn attribute(alloc: Global, modules: u32, home: u32, token: Token) -> Ask
        ensures { result ≡ new_inquiry modules home soughts.Attribute token }
    {
        Ask::of(
            alloc,
            Start {
                modules,
                home,
                sought: Sought::Attribute,
                token,
            },
        )
    }

    /// The next question, or the end.
    #[tactic(auto, unfolding(crate::specs::Inquiry::next_of))]
    pub fn next(&self) -> Result<Next, NoMemory>
        ensures { IfOk result (λ next. next ≡ next_of self.now) }
    {
        state_next(self.transcript.allocator(), &self.state)
    }

    /// Takes the reply to the next question. Asks that there is one. `NoMemory` changes nothing.
    #[tactic(auto, unfolding(crate::specs::Inquiry::next_of))]
    pub fn answered(&mut self, reply: Reply) -> Result<(), NoMemory>
        requires { is_question (next_of self.old) ≡ true }
        ensures ok { OnOk result (self.new ≡ with_reply self.old reply) }
        ensures err { OnErr result (self.new ≡ self.old) }
    {
        let alloc = self.transcript.allocator();
        let Next::Question { module: at, query } = state_next(alloc, &self.state)? else {
            return Ok(());
        };
        let advance = after_reply(alloc, &self.state, &query, &reply)?;
        let advance = Boxed::new(alloc, advance)?;
        let exchange = Exchange { at, query, reply };
        keep(&mut self.transcript, &mut self.state, exchange, advance)
    }
}
