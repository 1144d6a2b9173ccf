//! The first token that a value names and that is no kept row (ECMA-335 II.22, II.23.2, II.25.4).

ghost use Rattle.std.specs.Prelude.{◌≡◌, ◌∷◌, [], IfOk};
ghost use Rattle.std.specs.List.{find, flat_map};
ghost use Rattle.il_code.specs.declared.handler.Handler.{Handler};
ghost use Rattle.il_code.specs.declared.instr.Instr.{Instr};
ghost use Rattle.sig_tree.specs.Printed.{tokens};
ghost use Rattle.write_plan.specs.Named.{body_tokens, cell_tokens, dangling_in, handler_tokens, il_tokens};
ghost use Rattle.write_plan.specs.Named.{is_dangling, operand_tokens};
ghost use Rattle.write_plan.specs.inner.Taken.{IsMet};

use crate::met::MetRows;
use cil_base::{NoMemory, Token};
use il_code::{Body, Handler, HandlerKind, Instr, Operand};
use node_model::{BodyValue, Cell, Value};
use sig_tree::{Sig, sig_tokens};
use std::alloc::Global;

/// Whether a token is no kept row. The root names nothing.
fn is_dangling(met: &MetRows, token: Token) -> bool
    requires { IsMet met.now }
    ensures { result ≡ is_dangling met.now.all token }
{
    !(token.table == 0 && token.rid == 0) && !met.has(token)
}

/// This token, where it is no kept row.
fn if_dangling(met: &MetRows, token: Token) -> Option<Token>
    requires { IsMet met.now }
    ensures { result ≡ find (is_dangling met.now.all) (token ∷ []) }
{
    if is_dangling(met, token) {
        return Some(token);
    }
    None
}

/// The first of these tokens that is no kept row.
fn dangling_among(met: &MetRows, tokens: &[Token]) -> Option<Token>
    requires { IsMet met.now }
    ensures { result ≡ find (is_dangling met.now.all) tokens.now }
{
    for token in tokens {
        if is_dangling(met, *token) {
            return Some(*token);
        }
    }
    None
}

/// The same of a cell.
fn dangling_in_cell(met: &MetRows, cell: &Cell) -> Option<Token>
    requires { IsMet met.now }
    ensures { result ≡ find (is_dangling met.now.all) (cell_tokens cell.now) }
{
    match cell {
        Cell::Ref(token) => if_dangling(met, *token),
        _ => None,
    }
}

/// The first token of these cells that is no kept row.
fn dangling_in_cells(met: &MetRows, cells: &[Cell]) -> Option<Token>
    requires { IsMet met.now }
    ensures { result ≡ find (is_dangling met.now.all) (flat_map cell_tokens cells.now) }
{
    for cell in cells {
        if let Some(token) = dangling_in_cell(met, cell) {
            return Some(token);
        }
    }
    None
}

/// The same of an instruction.
fn dangling_in_instr(met: &MetRows, instr: &Instr) -> Option<Token>
    requires { IsMet met.now }
    ensures { result ≡ find (is_dangling met.now.all) (operand_tokens instr.now.operand) }
{
    match &instr.operand {
        Operand::Tok(token) => if_dangling(met, *token),
        _ => None,
    }
}

/// The first token of these instructions that is no kept row.
fn dangling_in_code(met: &MetRows, code: &[Instr]) -> Option<Token>
    requires { IsMet met.now }
    ensures { result ≡ find (is_dangling met.now.all) (flat_map (λ (x : Instr). operand_tokens x.operand) code.now) }
{
    for instr in code {
        if let Some(token) = dangling_in_instr(met, instr) {
            return Some(token);
        }
    }
    None
}

/// The same of a handler.
fn dangling_in_handler(met: &MetRows, handler: &Handler) -> Option<Token>
    requires { IsMet met.now }
    ensures { result ≡ find (is_dangling met.now.all) (handler_tokens handler.now.kind) }
{
    match handler.kind {
        HandlerKind::Typed(token) => if_dangling(met, token),
        _ => None,
    }
}

/// The first token of these handlers that is no kept row.
fn dangling_in_handlers(met: &MetRows, handlers: &[Handler]) -> Option<Token>
    requires { IsMet met.now }
    ensures { result ≡ find (is_dangling met.now.all) (flat_map (λ (h : Handler). handler_tokens h.kind) handlers.now) }
{
    for handler in handlers {
        if let Some(token) = dangling_in_handler(met, handler) {
            return Some(token);
        }
    }
    None
}

/// The first token of a body that is no kept row: of its locals, its instructions, its handlers.
fn dangling_in_il(met: &MetRows, body: &Body) -> Option<Token>
    requires { IsMet met.now }
    ensures { result ≡ find (is_dangling met.now.all) (il_tokens body.now) }
{
    if is_dangling(met, body.locals) {
        return Some(body.locals);
    }
    if let Some(token) = dangling_in_code(met, body.code.as_slice()) {
        return Some(token);
    }
    dangling_in_handlers(met, body.handlers.as_slice())
}

/// The same of what a method has for a body.
fn dangling_in_body(met: &MetRows, body: &BodyValue) -> Option<Token>
    requires { IsMet met.now }
    ensures { result ≡ find (is_dangling met.now.all) (body_tokens body.now) }
{
    match body {
        BodyValue::Il(body) => dangling_in_il(met, body),
        _ => None,
    }
}

/// The same of a signature.
fn dangling_in_sig(alloc: Global, met: &MetRows, sig: &Sig) -> Result<Option<Token>, NoMemory>
    requires { IsMet met.now }
    ensures { IfOk result (λ token. token ≡ find (is_dangling met.now.all) (tokens sig.now)) }
{
    let tokens = sig_tokens(alloc, sig)?;
    Ok(dangling_among(met, tokens.as_slice()))
}

/// The first token that a value names and that is no kept row.
pub(crate) fn dangling_in(
    alloc: Global,
    met: &MetRows,
    value: &Value,
) -> Result<Option<Token>, NoMemory>
    requires { IsMet met.now }
    ensures { IfOk result (λ token. token ≡ dangling_in met.now.all value.now) }
{
    match value {
        Value::Row(row) => Ok(dangling_in_cells(met, row.cells.as_slice())),
        Value::Sig(sig) => dangling_in_sig(alloc, met, sig),
        Value::Tokens(tokens) => Ok(dangling_among(met, tokens.as_slice())),
        Value::Body(body) => Ok(dangling_in_body(met, body)),
        Value::Facts(facts) => Ok(if_dangling(met, facts.entry)),
        Value::Data(_) => Ok(None),
        Value::Resource(_) => Ok(None),
    }
}
