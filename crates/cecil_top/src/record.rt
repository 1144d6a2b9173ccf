use crate::said::Said;
use cil_base::List;
use job_text::Command;
use lazy_core::Core;

/// What an actor did: its commands, in which no back reference is left, and what was answered to each.
#[derive(Drop)]
pub struct ActorRecord {
    pub commands: List<Command>,
    pub said: List<Said>,
}

/// What a run comes to: each module's core, whose history is that of all actors, and what each actor did.
#[derive(Drop)]
pub struct RunRecord {
    pub cores: List<Core>,
    pub actors: List<ActorRecord>,
}
