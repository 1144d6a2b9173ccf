ghost use Rattle.std.specs.Prelude.{◌≡◌, ◌++◌};
ghost use Rattle.std.specs.List.{flat_map};
ghost use Rattle.il_code.specs.declared.handler.Handler.{Handler};
ghost use Rattle.il_code.specs.declared.instr.Instr.{Instr};
ghost use Rattle.node_model.specs.NamedTokens.{body_names, cell_names, cells_name, edit_names, entry_names};
ghost use Rattle.node_model.specs.NamedTokens.{handler_kind_names, is_table, locals_name, operand_names, opt_sig_names};
ghost use Rattle.node_model.specs.Nodes.{nodes_there};
ghost use Rattle.node_model.specs.PlacedCells.{edit_cells};
ghost use Rattle.graph_edits.specs.inner.BadNames.{bad_unless, first_bad};
ghost use Rattle.graph_edits.specs.inner.CellsLeft.{seen_placed};

use crate::placed_cells::{ColumnCell, edit_cells};
use crate::row_lists::{is_link_column, is_root_token};
use crate::sig_names::bad_in_sig;
use cil_base::Token;
use il_code::{Body, Handler, HandlerKind, Instr, Operand};
use md_schema::{columns, may_name, table};
use node_model::{BodyValue, Cell, Edit, OptSig, RowsThere};

/// The token, unless it is a row that is there, of a table that its place allows.
pub(crate) fn bad_unless(rows: &RowsThere, allowed: bool, token: Token) -> Option<Token>
    ensures { result ≡ bad_unless (nodes_there rows.now) allowed token }
{
    if rows.is_live(token) && allowed {
        None
    } else {
        Some(token)
    }
}

/// The token that a cell names, if it is refused. A null link names the root, and is refused.
fn bad_in_cell(rows: &RowsThere, placed: &ColumnCell) -> Option<Token>
    ensures { result ≡ first_bad (nodes_there rows.now) (cell_names (seen_placed placed.now) placed.now.cell.now) }
{
    match placed.cell {
        Cell::Ref(token) => bad_unless(rows, may_name(placed.kind, token.table), *token),
        Cell::NoRef if is_link_column(placed.table, placed.column) => Some(Token::ROOT),
        _ => None,
    }
}

/// The first token that the cells of an edit name and that is refused.
#[tactic(auto, using(crate::proofs::NameLemmas::first_bad_append))]
fn bad_in_cells(rows: &RowsThere, edit: &Edit) -> Option<Token>
    ensures { result ≡ first_bad (nodes_there rows.now) (cells_name (edit_cells edit.now)) }
{
    let mut left = edit_cells(edit);
    while let Some((placed, others)) = left.split_first() {
        if let Some(token) = bad_in_cell(rows, &placed) {
            return Some(token);
        }
        left = others;
    }
    None
}

/// The same of the signature of a new row.
fn bad_in_opt_sig(rows: &RowsThere, sig: &OptSig) -> Option<Token>
    ensures { result ≡ first_bad (nodes_there rows.now) (opt_sig_names sig.now) }
{
    match sig {
        OptSig::None => None,
        OptSig::Is(sig) => bad_in_sig(rows, sig),
    }
}

/// The locals of a body, unless they are a row of StandAloneSig or the root (ECMA-335 II.25.4.3).
fn bad_locals(rows: &RowsThere, token: Token) -> Option<Token>
    ensures { result ≡ first_bad (nodes_there rows.now) (locals_name token) }
{
    if is_root_token(token) {
        return None;
    }
    bad_unless(rows, token.table == table::STAND_ALONE_SIG, token)
}

/// The entry point, unless it is a row of MethodDef or of File, or the root (ECMA-335 II.25.3.3.2).
fn bad_entry(rows: &RowsThere, token: Token) -> Option<Token>
    ensures { result ≡ first_bad (nodes_there rows.now) (entry_names token) }
{
    if is_root_token(token) {
        return None;
    }
    let allowed = token.table == table::METHOD_DEF || token.table == table::FILE;
    bad_unless(rows, allowed, token)
}

/// A token that any table may have.
fn bad_token(rows: &RowsThere, token: Token) -> Option<Token>
    ensures { result ≡ bad_unless (nodes_there rows.now) (is_table token.table) token }
{
    bad_unless(rows, columns(token.table).is_some(), token)
}

/// The token of an operand, if it is refused.
fn bad_in_operand(rows: &RowsThere, operand: &Operand) -> Option<Token>
    ensures { result ≡ first_bad (nodes_there rows.now) (operand_names operand.now) }
{
    match operand {
        Operand::Tok(token) => bad_token(rows, *token),
        _ => None,
    }
}

/// The token of a handler, if it is refused.
fn bad_in_handler(rows: &RowsThere, kind: HandlerKind) -> Option<Token>
    ensures { result ≡ first_bad (nodes_there rows.now) (handler_kind_names kind) }
{
    match kind {
        HandlerKind::Typed(token) => bad_token(rows, token),
        _ => None,
    }
}

/// The first token that instructions name and that is refused.
#[tactic(auto, using(crate::proofs::NameLemmas::first_bad_append))]
fn bad_in_code(rows: &RowsThere, code: &[Instr]) -> Option<Token>
    ensures { result
        ≡ first_bad (nodes_there rows.now) (flat_map (λ (x : Instr). operand_names x.operand) code.now) }
{
    for instr in code {
        if let Some(token) = bad_in_operand(rows, &instr.operand) {
            return Some(token);
        }
    }
    None
}

/// The first token that handlers name and that is refused.
#[tactic(auto, using(crate::proofs::NameLemmas::first_bad_append))]
fn bad_in_handlers(rows: &RowsThere, handlers: &[Handler]) -> Option<Token>
    ensures { result
        ≡ first_bad (nodes_there rows.now) (flat_map (λ (h : Handler). handler_kind_names h.kind) handlers.now) }
{
    for handler in handlers {
        if let Some(token) = bad_in_handler(rows, handler.kind) {
            return Some(token);
        }
    }
    None
}

/// The first token that a body names and that is refused: its locals, its instructions, then its handlers.
#[tactic(auto, using(crate::proofs::NameLemmas::first_bad_append))]
fn bad_in_il(rows: &RowsThere, body: &Body) -> Option<Token>
    ensures { result ≡ first_bad (nodes_there rows.now) (body_names (BodyValue.Il body.now)) }
{
    if let Some(token) = bad_locals(rows, body.locals) {
        return Some(token);
    }
    if let Some(token) = bad_in_code(rows, body.code.as_slice()) {
        return Some(token);
    }
    bad_in_handlers(rows, body.handlers.as_slice())
}

/// The same of what a MethodDef row has for a body.
fn bad_in_body(rows: &RowsThere, body: &BodyValue) -> Option<Token>
    ensures { result ≡ first_bad (nodes_there rows.now) (body_names body.now) }
{
    match body {
        BodyValue::Il(body) => bad_in_il(rows, body),
        _ => None,
    }
}

/// The first token that a new row names and that is refused: its cells first, then its signature.
#[tactic(auto, using(crate::proofs::NameLemmas::first_bad_append))]
fn bad_in_row(rows: &RowsThere, edit: &Edit, sig: &OptSig) -> Option<Token>
    ensures { result
        ≡ first_bad (nodes_there rows.now) (cells_name (edit_cells edit.now) ++ opt_sig_names sig.now) }
{
    if let Some(token) = bad_in_cells(rows, edit) {
        return Some(token);
    }
    bad_in_opt_sig(rows, sig)
}

/// The first token that an edit names and that is refused: it is no row, was removed, or is of a table that its place
/// does not allow.
pub(crate) fn bad_name(rows: &RowsThere, edit: &Edit) -> Option<Token>
    ensures { result ≡ first_bad (nodes_there rows.now) (edit_names edit.now) }
{
    match edit {
        Edit::Set { .. } => bad_in_cells(rows, edit),
        Edit::Add { sig, .. } | Edit::Insert { sig, .. } => bad_in_row(rows, edit, sig),
        Edit::SetSig { sig, .. } => bad_in_sig(rows, sig),
        Edit::SetBody { body, .. } => bad_in_body(rows, body),
        Edit::SetEntry { token } => bad_entry(rows, *token),
        Edit::IlInsert { instr, .. } | Edit::IlReplace { instr, .. } => {
            bad_in_operand(rows, &instr.operand)
        }
        Edit::IlHead { locals, .. } => bad_locals(rows, *locals),
        Edit::AddHandler { handler, .. } => bad_in_handler(rows, handler.kind),
        Edit::SetData { .. }
        | Edit::SetResource { .. }
        | Edit::Remove { .. }
        | Edit::IlRemove { .. }
        | Edit::RemoveHandler { .. } => None,
    }
}
