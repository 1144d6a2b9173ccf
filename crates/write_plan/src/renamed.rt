//! Values with the tokens of their rows by new numbers.

ghost use Rattle.std.specs.Prelude.{◌≡◌, map, true, IfOk};
ghost use Rattle.std.specs.List.{list_all};
ghost use Rattle.il_code.specs.declared.handler.Handler.{Handler};
ghost use Rattle.il_code.specs.declared.instr.Instr.{Instr};
ghost use Rattle.sig_tree.specs.Printed.{tokens as own_tokens};
ghost use Rattle.sig_tree.specs.Replaced.{names_type, replaced};
ghost use Rattle.write_plan.specs.Renamed.{body_renamed, cell_renamed, facts_renamed, handler_kind_renamed};
ghost use Rattle.write_plan.specs.Renamed.{handler_renamed, il_renamed, instr_renamed, operand_renamed, renamed};
ghost use Rattle.write_plan.specs.Written.{new_token};

use crate::plan::Plan;
use cil_base::{List, NoMemory, Token};
use il_code::{Body, Handler, HandlerKind, Instr, Operand};
use node_model::{BodyValue, Cell, RowValue, Value};
use pe_image::Facts;
use sig_tree::{Sig, sig_tokens, with_tokens};
use std::alloc::Global;

impl Plan {
    /// These tokens by new numbers.
    fn renamed_tokens(&self, alloc: Global, tokens: &[Token]) -> Result<List<Token>, NoMemory>
        ensures tokens { IfOk result (λ new. new ≡ map (new_token self.now.lists) tokens.now) }
        ensures types { IfOk result (λ new. list_all names_type tokens.now ≡ true → list_all names_type new ≡ true) }
    {
        let mut new = List::new(alloc);
        for token in tokens {
            new.push(self.new_token(*token))?;
        }
        Ok(new)
    }

    /// A cell with its token by the new number.
    fn renamed_cell(&self, alloc: Global, cell: &Cell) -> Result<Cell, NoMemory>
        ensures { IfOk result (λ new. new ≡ cell_renamed (new_token self.now.lists) cell.now) }
    {
        match cell {
            Cell::Ref(token) => Ok(Cell::Ref(self.new_token(*token))),
            _ => cell.copy(alloc),
        }
    }

    /// Cells with their tokens by new numbers.
    fn renamed_cells(&self, alloc: Global, cells: &[Cell]) -> Result<List<Cell>, NoMemory>
        ensures { IfOk result (λ new. new ≡ map (cell_renamed (new_token self.now.lists)) cells.now) }
    {
        let mut new = List::new(alloc);
        for cell in cells {
            new.push(self.renamed_cell(alloc, cell)?)?;
        }
        Ok(new)
    }

    /// An operand with its token by the new number.
    fn renamed_operand(&self, operand: &Operand) -> Result<Operand, NoMemory>
        ensures { IfOk result (λ new. new ≡ operand_renamed (new_token self.now.lists) operand.now) }
    {
        match operand {
            Operand::Tok(token) => Ok(Operand::Tok(self.new_token(*token))),
            _ => operand.copy(),
        }
    }

    /// An instruction with its token by the new number.
    fn renamed_instr(&self, instr: &Instr) -> Result<Instr, NoMemory>
        ensures { IfOk result (λ new. new ≡ instr_renamed (new_token self.now.lists) instr.now) }
    {
        let operand = self.renamed_operand(&instr.operand)?;
        Ok(Instr {
            op: instr.op,
            operand,
        })
    }

    /// Instructions with their tokens by new numbers.
    fn renamed_code(&self, alloc: Global, code: &[Instr]) -> Result<List<Instr>, NoMemory>
        ensures { IfOk result (λ new. new ≡ map (instr_renamed (new_token self.now.lists)) code.now) }
    {
        let mut new = List::new(alloc);
        for instr in code {
            new.push(self.renamed_instr(instr)?)?;
        }
        Ok(new)
    }

    /// A kind of handler with its token by the new number.
    fn renamed_kind(&self, kind: HandlerKind) -> HandlerKind
        ensures { result ≡ handler_kind_renamed (new_token self.now.lists) kind }
    {
        match kind {
            HandlerKind::Typed(token) => HandlerKind::Typed(self.new_token(token)),
            _ => kind,
        }
    }

    /// A handler with its token by the new number.
    fn renamed_handler(&self, handler: &Handler) -> Handler
        ensures { result ≡ handler_renamed (new_token self.now.lists) handler.now }
    {
        Handler {
            kind: self.renamed_kind(handler.kind),
            try_start: handler.try_start,
            try_end: handler.try_end,
            start: handler.start,
            end: handler.end,
        }
    }

    /// Handlers with their tokens by new numbers.
    fn renamed_handlers(
        &self,
        alloc: Global,
        handlers: &[Handler],
    ) -> Result<List<Handler>, NoMemory>
        ensures { IfOk result (λ new. new ≡ map (handler_renamed (new_token self.now.lists)) handlers.now) }
    {
        let mut new = List::new(alloc);
        for handler in handlers {
            new.push(self.renamed_handler(handler))?;
        }
        Ok(new)
    }

    /// A body with its tokens by new numbers.
    fn renamed_il(&self, alloc: Global, body: &Body) -> Result<Body, NoMemory>
        ensures { IfOk result (λ new. new ≡ il_renamed (new_token self.now.lists) body.now) }
    {
        let code = self.renamed_code(alloc, body.code.as_slice())?;
        let handlers = self.renamed_handlers(alloc, body.handlers.as_slice())?;
        Ok(Body {
            max_stack: body.max_stack,
            init_locals: body.init_locals,
            locals: self.new_token(body.locals),
            code,
            handlers,
        })
    }

    /// What a method has for a body, with its tokens by new numbers.
    fn renamed_body(&self, alloc: Global, body: &BodyValue) -> Result<BodyValue, NoMemory>
        ensures { IfOk result (λ new. new ≡ body_renamed (new_token self.now.lists) body.now) }
    {
        match body {
            BodyValue::Il(body) => Ok(BodyValue::Il(self.renamed_il(alloc, body)?)),
            _ => body.copy(alloc),
        }
    }

    /// A signature with its tokens by new numbers.
    fn renamed_sig(&self, alloc: Global, sig: &Sig) -> Result<Sig, NoMemory>
        ensures { IfOk result (λ new. new ≡ replaced sig.now (map (new_token self.now.lists) (own_tokens sig.now))) }
    {
        let _tree = sig.tree();
        let tokens = sig_tokens(alloc, sig)?;
        let new = self.renamed_tokens(alloc, tokens.as_slice())?;
        with_tokens(alloc, sig, &new)
    }

    /// Facts with the entry point by its new number.
    fn renamed_facts(&self, facts: &Facts) -> Result<Facts, NoMemory>
        ensures { IfOk result (λ new. new ≡ facts_renamed (new_token self.now.lists) facts.now) }
    {
        let mut new = facts.copy()?;
        new.entry = self.new_token(facts.entry);
        Ok(new)
    }

    /// A row with its own token and those that its cells name by new numbers.
    fn renamed_row(&self, alloc: Global, row: &RowValue) -> Result<RowValue, NoMemory>
        ensures { IfOk result (λ new. new ≡ record {
          token = new_token self.now.lists row.now.token;
          cells = map (cell_renamed (new_token self.now.lists)) row.now.cells;
        }) }
    {
        let cells = self.renamed_cells(alloc, row.cells.as_slice())?;
        Ok(RowValue {
            token: self.new_token(row.token),
            cells,
        })
    }

    /// A value with all tokens that it names by new numbers, as it is read again from what is written. A token of no
    /// kept row stays as it is.
    pub fn renamed(&self, alloc: Global, value: &Value) -> Result<Value, NoMemory>
        ensures { IfOk result (λ new. new ≡ renamed (new_token self.now.lists) value.now) }
    {
        match value {
            Value::Row(row) => Ok(Value::Row(self.renamed_row(alloc, row)?)),
            Value::Sig(sig) => Ok(Value::Sig(self.renamed_sig(alloc, sig)?)),
            Value::Tokens(tokens) => Ok(Value::Tokens(self.renamed_tokens(
                alloc,
                tokens.as_slice(),
            )?)),
            Value::Body(body) => Ok(Value::Body(self.renamed_body(alloc, body)?)),
            Value::Facts(facts) => Ok(Value::Facts(self.renamed_facts(facts)?)),
            Value::Data(bytes) => Ok(Value::Data(bytes.copy()?)),
            Value::Resource(resource) => Ok(Value::Resource(resource.copy(alloc)?)),
        }
    }
}
