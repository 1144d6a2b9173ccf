ghost use Rattle.std.specs.Prelude.{◌≡◌, IfOk};

use cil_base::NoMemory;
use node_model::{Query, Reply};
use std::alloc::Global;

/// A question with its reply.
#[derive(Drop)]
pub struct Exchange {
    /// The number of the module that was asked.
    pub at: u32,
    pub query: Query,
    pub reply: Reply,
}

impl Exchange {
    /// An equal exchange of its own.
    pub fn copy(&self, alloc: Global) -> Result<Exchange, NoMemory>
        ensures { IfOk result (λ copy. copy ≡ self.now) }
    {
        let query = self.query.copy(alloc)?;
        let reply = self.reply.copy(alloc)?;
        Ok(Exchange {
            at: self.at,
            query,
            reply,
        })
    }
}
