ghost use Rattle.std.specs.Prelude.{◌≡◌, OnErr, OnOk};
ghost use Rattle.resolver.specs.Machine.{advanced};

use crate::attributes::AttributeStage;
use crate::enum_widths::EnumStage;
use crate::left::TokensLeft;
use crate::members::MemberStage;
use crate::named_types::TypeStage;
use crate::reading::{Reading, add_name};
use crate::references::ReferenceStage;
use crate::waiting::Waiting;
use attr_blob::AttrValue;
use cil_base::{Boxed, Bytes, List, NoMemory, Token};
use node_model::Reply;

/// Where an `Ask` stands between two replies.
#[derive(Drop)]
pub(crate) struct State {
    /// How many modules there are.
    pub modules: u32,
    /// The number of the module in which it began.
    pub home: u32,
    /// What is known of the attribute that is read, from the signature of its constructor on.
    pub reading: Option<Reading>,
    /// How many steps to another token were taken.
    pub hops: u32,
    /// What waits for the type that is looked for, the last to wait first.
    pub waiting: List<Waiting>,
    /// The rows that are still to be gone over.
    pub left: TokensLeft,
    pub stage: Stage,
}

/// What is asked, by what it is asked for.
#[derive(Drop)]
pub(crate) enum Stage {
    Reference(ReferenceStage),
    NamedType(TypeStage),
    Member(MemberStage),
    Attribute(AttributeStage),
    EnumType(EnumStage),
    Ended(End),
}

/// Where it ended.
#[derive(Drop)]
pub(crate) enum End {
    /// At a row of the module of that number.
    Found { at: u32, token: Token },
    Attribute(AttrValue),
    BadAttribute,
    Unresolved(Bytes),
    TooDeep,
    /// At a reply that does not fit its question.
    Stopped(Boxed<Reply>),
    /// Before the first question, since the table has no references, or no attributes.
    NoReference(Token),
}

/// What a reply leads to.
#[derive(Drop)]
pub(crate) enum Advance {
    /// Another stage.
    To(Stage),
    /// The first of these rows.
    Over(List<Token>, Stage),
    /// The next of the rows that are left.
    Onward(Stage),
    /// A stage for which these wait, after so many steps to another token.
    Waits {
        hops: u32,
        waiting: List<Waiting>,
        stage: Stage,
    },
    /// The next parameter, since this is the name of the last one.
    Named(Bytes),
    /// A stage in which more is known of the attribute, and for which these wait.
    Reads {
        reading: Reading,
        waiting: List<Waiting>,
        stage: Stage,
    },
}

impl State {
    fn enter(&mut self, stage: Stage)
        ensures { self.new ≡ advanced self.old (Advance.To stage) }
    {
        self.stage = stage;
    }

    fn go_over(&mut self, tokens: List<Token>, stage: Stage)
        ensures { self.new ≡ advanced self.old (Advance.Over tokens stage) }
    {
        self.left = TokensLeft::of(tokens);
        self.stage = stage;
    }

    fn go_onward(&mut self, stage: Stage)
        ensures { self.new ≡ advanced self.old (Advance.Onward stage) }
    {
        self.left.advance();
        self.stage = stage;
    }

    fn wait(&mut self, hops: u32, waiting: List<Waiting>, stage: Stage)
        ensures { self.new ≡ advanced self.old (Advance.Waits hops waiting stage) }
    {
        self.hops = hops;
        self.waiting = waiting;
        self.stage = stage;
    }

    fn read(&mut self, reading: Reading, waiting: List<Waiting>, stage: Stage)
        ensures { self.new ≡ advanced self.old (Advance.Reads reading waiting stage) }
    {
        self.reading = Some(reading);
        self.hops = 0;
        self.waiting = waiting;
        self.stage = stage;
    }

    /// Advances so. `NoMemory` changes nothing.
    pub(crate) fn advance(&mut self, advance: Advance) -> Result<(), NoMemory>
        ensures ok { OnOk result (self.new ≡ advanced self.old advance) }
        ensures err { OnErr result (self.new ≡ self.old) }
    {
        match advance {
            Advance::To(stage) => self.enter(stage),
            Advance::Over(tokens, stage) => self.go_over(tokens, stage),
            Advance::Onward(stage) => self.go_onward(stage),
            Advance::Waits {
                hops,
                waiting,
                stage,
            } => self.wait(hops, waiting, stage),
            Advance::Named(name) => return add_name(&mut self.reading, name),
            Advance::Reads {
                reading,
                waiting,
                stage,
            } => self.read(reading, waiting, stage),
        }
        Ok(())
    }
}
