//! A type with its members, and a method with its parts.

ghost use Rattle.std.specs.Prelude.{◌≡◌, ◌∷◌, ◌++◌, OnOk};
ghost use Rattle.std.specs.List.{flat_map};
ghost use Rattle.dump_text.specs.ViewTexts.{keyed_body, listed_token, method_text, next_list_text, next_row_text, rows_text};
ghost use Rattle.dump_text.specs.ViewTexts.{sig_text, tokens_text, type_text};

use crate::body::add_body;
use crate::key::{add_key, add_word};
use crate::row::add_row;
use cil_base::{Bytes, NoMemory, Token};
use md_schema::Link;
use node_model::{BodyValue, Key, MethodView, RowValue, TypeView};
use sig_text::print_sig;
use sig_tree::Sig;

/// Adds tokens, each after a space.
fn add_listed(text: &mut Bytes, tokens: &[Token]) -> Result<(), NoMemory>
    ensures { OnOk result (text.new ≡ text.old ++ flat_map listed_token tokens.now) }
{
    for token in tokens {
        add_word(text, b" ", *token)?;
    }
    Ok(())
}

/// Adds a list with its key.
pub(crate) fn add_tokens(text: &mut Bytes, key: &Key, tokens: &[Token]) -> Result<(), NoMemory>
    ensures { OnOk result (text.new ≡ text.old ++ tokens_text key.now tokens.now) }
{
    add_key(text, key)?;
    text.push(b':')?;
    add_listed(text, tokens)
}

/// Adds a signature with its key.
pub(crate) fn add_sig(text: &mut Bytes, token: Token, sig: &Sig) -> Result<(), NoMemory>
    ensures { OnOk result (text.new ≡ text.old ++ sig_text token sig.now) }
{
    let printed = print_sig(text.allocator(), sig)?;
    add_key(text, &Key::Sig(token))?;
    text.push(b' ')?;
    text.extend(printed.as_slice())
}

/// Adds a body with its key.
pub(crate) fn add_keyed_body(
    text: &mut Bytes,
    token: Token,
    body: &BodyValue,
) -> Result<(), NoMemory>
    ensures { OnOk result (text.new ≡ text.old ++ keyed_body token body.now) }
{
    add_key(text, &Key::Body(token))?;
    add_body(text, body)
}

/// Adds a row behind what stands before it.
fn add_next_row(text: &mut Bytes, row: &RowValue) -> Result<(), NoMemory>
    ensures { OnOk result (text.new ≡ text.old ++ next_row_text row.now) }
{
    text.extend(b"; ")?;
    add_row(text, row)
}

/// Adds rows, each behind what stands before it.
fn add_rows(text: &mut Bytes, rows: &[RowValue]) -> Result<(), NoMemory>
    ensures { OnOk result (text.new ≡ text.old ++ rows_text rows.now) }
{
    for row in rows {
        add_next_row(text, row)?;
    }
    Ok(())
}

/// Adds a list of rows that belong to a row by a link, behind what stands before it.
fn add_next_list(
    text: &mut Bytes,
    token: Token,
    link: Link,
    tokens: &[Token],
) -> Result<(), NoMemory>
    ensures { OnOk result (text.new ≡ text.old ++ next_list_text token link tokens.now) }
{
    text.extend(b"; ")?;
    add_tokens(text, &Key::Linked(token, link), tokens)
}

/// Adds a type with its members.
pub(crate) fn add_type_view(text: &mut Bytes, view: &TypeView) -> Result<(), NoMemory>
    ensures { OnOk result (text.new ≡ text.old ++ type_text view.now) }
{
    let token = view.row.token;
    text.extend(b"type ")?;
    add_row(text, &view.row)?;
    add_rows(text, view.fields.as_slice())?;
    add_rows(text, view.methods.as_slice())?;
    add_next_list(text, token, Link::InterfaceImpl, view.interfaces.as_slice())?;
    add_next_list(text, token, Link::Nested, view.nested.as_slice())
}

/// Adds a method with its parameters and its body.
pub(crate) fn add_method_view(text: &mut Bytes, view: &MethodView) -> Result<(), NoMemory>
    ensures { OnOk result (text.new ≡ text.old ++ method_text view.now) }
{
    let token = view.row.token;
    text.extend(b"method ")?;
    add_row(text, &view.row)?;
    text.extend(b"; ")?;
    add_sig(text, token, &view.sig)?;
    add_rows(text, view.params.as_slice())?;
    text.extend(b"; ")?;
    add_keyed_body(text, token, &view.body)
}
