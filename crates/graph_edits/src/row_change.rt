//! Changes as values: a new row in the lists in which it stands, and a row that leaves its lists.

ghost use Rattle.std.specs.Prelude.{◌≡◌, ◌<◌, ◌≤◌, ◌-◌, ◌^◌, ◌∷◌, ◌++◌, [], IfOk, insert, length};
ghost use Rattle.std.specs.List.{list_any};
ghost use Rattle.node_model.specs.Changes.{new_row, row_removed, without_token};
ghost use Rattle.node_model.specs.Keys.{same_token};
ghost use Rattle.node_model.specs.Lists.{tokens_slot};
ghost use Rattle.graph_edits.specs.Graphs.{nodes_in};
ghost use Rattle.graph_edits.specs.inner.ListWalks.{lists_with, lists_without, row_made};

use crate::change::Changing;
use crate::graph::EditGraph;
use cil_base::{List, NoMemory, Token};
use node_model::{
    Cell, Change, EditRefusal, Key, OptSig, RowChange, RowValue, Slot, Value, copy_cells,
};
use std::alloc::Global;

/// The change by a new row of a table that has room for it, with what becomes of the lists in which it stands.
pub(crate) fn row_made(
    alloc: Global,
    graph: &EditGraph,
    table: u8,
    cells: &List<Cell>,
    sig: &OptSig,
    contents: List<(Key, Slot)>,
) -> Result<Change, NoMemory>
    requires { (nodes_in graph.now).rows table < 2 ^ 24 - 1 }
    ensures { IfOk result (λ change. change
        ≡ row_made (new_row (nodes_in graph.now) table cells.now) sig.now contents) }
{
    let token = graph.next_row(table);
    let cells = copy_cells(alloc, cells)?;
    let sig = sig.copy(alloc)?;
    let rows = RowChange::Made(RowValue { token, cells }, sig);
    Ok(Change { contents, rows })
}

/// The tokens with one more behind them, as the content of a list's key.
fn with_last(tokens: List<Token>, token: Token) -> Result<Slot, NoMemory>
    ensures { IfOk result (λ slot. slot ≡ tokens_slot (tokens ++ token ∷ [])) }
{
    let mut tokens = tokens;
    tokens.push(token)?;
    Ok(Slot::Value(Value::Tokens(tokens)))
}

/// The content of these lists with a token more behind the others.
#[tactic(auto, using(crate::proofs::ListLemmas::map_last))]
pub(crate) fn lists_with(
    alloc: Global,
    token: Token,
    lists: List<(Key, List<Token>)>,
) -> Result<List<(Key, Slot)>, NoMemory>
    ensures { IfOk result (λ contents. contents ≡ lists_with token lists) }
{
    let mut lists = lists;
    let Some((key, tokens)) = lists.pop() else {
        return Ok(List::new(alloc));
    };
    let mut contents = lists_with(alloc, token, lists)?;
    let slot = with_last(tokens, token)?;
    contents.push((key, slot))?;
    Ok(contents)
}

/// The content of a list with a token more before a place.
pub(crate) fn list_with(
    alloc: Global,
    key: Key,
    at: usize,
    token: Token,
    tokens: &List<Token>,
) -> Result<List<(Key, Slot)>, NoMemory>
    requires { at ≤ length tokens.now }
    ensures { IfOk result (λ contents. contents ≡ (key, tokens_slot (insert tokens.now at token)) ∷ []) }
{
    let mut tokens = tokens.copy()?;
    tokens.insert(at, token)?;
    let mut contents = List::new(alloc);
    contents.push((key, Slot::Value(Value::Tokens(tokens))))?;
    Ok(contents)
}

/// The tokens that are not this one.
fn without_token(alloc: Global, token: Token, tokens: &List<Token>) -> Result<List<Token>, NoMemory>
    ensures { IfOk result (λ others. others ≡ without_token token tokens.now) }
{
    let mut others = List::new(alloc);
    for other in tokens.as_slice() {
        if token != *other {
            others.push(*other)?;
        }
    }
    Ok(others)
}

/// The content of these lists without a token.
#[tactic(auto, using(crate::proofs::ListLemmas::map_last))]
fn lists_without(
    alloc: Global,
    token: Token,
    lists: List<(Key, List<Token>)>,
) -> Result<List<(Key, Slot)>, NoMemory>
    ensures { IfOk result (λ contents. contents ≡ lists_without token lists) }
{
    let mut lists = lists;
    let Some((key, tokens)) = lists.pop() else {
        return Ok(List::new(alloc));
    };
    let mut contents = lists_without(alloc, token, lists)?;
    let tokens = without_token(alloc, token, &tokens)?;
    contents.push((key, Slot::Value(Value::Tokens(tokens))))?;
    Ok(contents)
}

/// Whether a token is among these.
fn holds(tokens: &List<Token>, token: Token) -> bool
    ensures { result ≡ list_any (same_token token) tokens.now }
{
    for other in tokens.as_slice() {
        if token == *other {
            return true;
        }
    }
    false
}

/// The change by a row that leaves these lists, or the refusal where the first does not hold it.
pub(crate) fn row_removed(
    alloc: Global,
    token: Token,
    lists: List<(Key, List<Token>)>,
) -> Result<Changing, NoMemory>
    ensures { IfOk result (λ changing. changing ≡ row_removed token lists) }
{
    let [(_, first), ..] = lists.as_slice() else {
        return Ok(Err(EditRefusal::NotThere(token)));
    };
    if !holds(first, token) {
        return Ok(Err(EditRefusal::NotThere(token)));
    }
    let contents = lists_without(alloc, token, lists)?;
    Ok(Ok(Change {
        contents,
        rows: RowChange::Gone(token),
    }))
}
