ghost use Rattle.std.specs.Prelude.{◌≡◌, IfOk};

use crate::handler::Handler;
use crate::instr::{Instr, copy_code};
use cil_base::{List, NoMemory, Token};
use std::marker::Model;

/// A method's body (ECMA-335 II.25.4). It has fewer than 2^32 instructions and fewer than 2^32 handlers.
#[derive(Drop, PartialEq, Eq)]
pub struct Body {
    pub max_stack: u16,
    pub init_locals: bool,
    /// The StandAloneSig row of the locals, or the root where there are none.
    pub locals: Token,
    pub code: List<Instr>,
    pub handlers: List<Handler>,
}

impl Model for Body {
    ghost use Rattle.std.specs.Prelude.{◌<◌, ◌^◌, length};
    ghost use Rattle.il_code.specs.Body.{Body};

    ghost Value = { Body };

    ghost view = { λ b. record {
      max_stack = b.max_stack;
      init_locals = b.init_locals;
      locals = b.locals;
      code = b.code;
      handlers = b.handlers;
    } };

    ghost invariant = { λ b. (length b.code < 2 ^ 32) × (length b.handlers < 2 ^ 32) };

    ghost inverse = { λ b. record {
      max_stack = b.max_stack;
      init_locals = b.init_locals;
      locals = b.locals;
      code = b.code;
      handlers = b.handlers;
    } };
}

impl Body {
    /// An equal body of its own.
    pub fn copy(&self) -> Result<Body, NoMemory>
        ensures { IfOk result (λ body. body ≡ self.now) }
    {
        let code = copy_code(&self.code)?;
        let handlers = self.handlers.copy()?;
        Ok(Body {
            max_stack: self.max_stack,
            init_locals: self.init_locals,
            locals: self.locals,
            code,
            handlers,
        })
    }
}
