ghost use Rattle.std.specs.Prelude.{◌≡◌};
ghost use Rattle.resolver.specs.Machine.{start_stage, start_state};

use crate::attributes::AttributeStage;
use crate::found::{first_stage, is_definition};
use crate::left::TokensLeft;
use crate::state::{End, Stage, State};
use cil_base::{List, Token};
use md_schema::table;
use std::alloc::Global;

/// What is sought of a token.
#[derive(Clone, Copy)]
pub enum Sought {
    /// Where the reference leads.
    Reference,
    /// What the attribute says.
    Attribute,
}

/// Where an `Ask` begins: how many modules there are, the number of the token's module, what is sought, and the token.
#[derive(Clone, Copy)]
pub struct Start {
    pub modules: u32,
    pub home: u32,
    pub sought: Sought,
    pub token: Token,
}

/// The first stage.
fn start_stage(sought: Sought, home: u32, token: Token) -> Stage
    ensures { result ≡ start_stage sought home token }
{
    match sought {
        Sought::Reference => {
            if is_definition(token.table) {
                return Stage::Ended(End::Found { at: home, token });
            }
            first_stage(home, token)
        }
        Sought::Attribute => {
            if token.table == table::CUSTOM_ATTRIBUTE {
                return Stage::Attribute(AttributeStage::Row(token));
            }
            Stage::Ended(End::NoReference(token))
        }
    }
}

/// The state before the first question.
pub(crate) fn start_state(alloc: Global, start: &Start) -> State
    ensures { result ≡ start_state start.now }
{
    State {
        modules: start.modules,
        home: start.home,
        reading: None,
        hops: 0,
        waiting: List::new(alloc),
        left: TokensLeft::of(List::new(alloc)),
        stage: start_stage(start.sought, start.home, start.token),
    }
}
