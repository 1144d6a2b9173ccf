ghost use Rattle.std.specs.Prelude.{◌≡◌, ◌∷◌, ◌++◌, IfOk, OnOk};
ghost use Rattle.asm_names.specs.Assembly.{hex_text};
ghost use Rattle.dump_text.specs.ReplyText.{reply_text, resource_text};

use crate::body::add_labelled;
use crate::facts::add_facts;
use crate::fault::add_fault;
use crate::key::{add_key, add_of, add_word};
use crate::pieces::{add_hex, add_quoted};
use crate::row::add_row;
use crate::view::{add_keyed_body, add_method_view, add_sig, add_tokens, add_type_view};
use cil_base::{Bytes, List, NoMemory, Token};
use node_model::{Key, Reply, ResourceValue};
use std::alloc::Global;

/// Adds a space and bytes.
fn add_spaced(text: &mut Bytes, bytes: &[u8]) -> Result<(), NoMemory>
    ensures { OnOk result (text.new ≡ text.old ++ 0x20 ∷ hex_text bytes.now) }
{
    text.push(b' ')?;
    add_hex(text, bytes)
}

/// Adds the data of a field with its key.
#[tactic(auto, unfolding(crate::specs::ReplyText::reply_text))]
fn add_data(text: &mut Bytes, token: Token, bytes: &[u8]) -> Result<(), NoMemory>
    ensures { OnOk result (text.new ≡ text.old ++ reply_text (Reply.Data token bytes.now)) }
{
    add_key(text, &Key::Data(token))?;
    add_spaced(text, bytes)
}

/// Adds what stands behind the key of a resource.
fn add_resource_value(text: &mut Bytes, value: &ResourceValue) -> Result<(), NoMemory>
    ensures { OnOk result (text.new ≡ text.old ++ resource_text value.now) }
{
    match value {
        ResourceValue::Here(bytes) => add_spaced(text, bytes.as_slice()),
        ResourceValue::Elsewhere(offset) => add_labelled(text, b" at ", u64::from(*offset)),
    }
}

/// Adds a resource with its key.
#[tactic(auto, unfolding(crate::specs::ReplyText::reply_text))]
fn add_resource(text: &mut Bytes, token: Token, value: &ResourceValue) -> Result<(), NoMemory>
    ensures { OnOk result (text.new ≡ text.old ++ reply_text (Reply.Resource token value.now)) }
{
    add_key(text, &Key::Resource(token))?;
    add_resource_value(text, value)
}

/// Adds the name of a row.
#[tactic(auto, unfolding(crate::specs::ReplyText::reply_text))]
fn add_name(text: &mut Bytes, token: Token, name: &[u8]) -> Result<(), NoMemory>
    ensures { OnOk result (text.new ≡ text.old ++ reply_text (Reply.Name token name.now)) }
{
    add_of(text, b"name ", token)?;
    add_quoted(text, name)
}

/// Adds the text of a reply, without a line feed, to a text. After `NoMemory` a front of it may have been added.
#[tactic(auto, unfolding(crate::specs::ReplyText::reply_text))]
pub fn add_reply(text: &mut Bytes, reply: &Reply) -> Result<(), NoMemory>
    ensures { OnOk result (text.new ≡ text.old ++ reply_text reply.now) }
{
    match reply {
        Reply::Row(row) => add_row(text, row),
        Reply::Sig(token, sig) => add_sig(text, *token, sig),
        Reply::Tokens(key, tokens) => add_tokens(text, key, tokens.as_slice()),
        Reply::Body(token, body) => add_keyed_body(text, *token, body),
        Reply::Data(token, bytes) => add_data(text, *token, bytes.as_slice()),
        Reply::Resource(token, value) => add_resource(text, *token, value),
        Reply::Facts(facts) => add_facts(text, facts),
        Reply::Name(token, name) => add_name(text, *token, name.as_slice()),
        Reply::TypeInfo(view) => add_type_view(text, view),
        Reply::Method(view) => add_method_view(text, view),
        Reply::Found(token) => add_word(text, b"found ", *token),
        Reply::NotFound => text.extend(b"notfound"),
        Reply::Filled(count) => add_labelled(text, b"filled ", *count),
        Reply::Fault(fault) => add_fault(text, fault),
        Reply::Absent(token) => add_word(text, b"absent ", *token),
        Reply::Removed(token) => add_word(text, b"removed ", *token),
        Reply::WrongKind(token) => add_word(text, b"wrongkind ", *token),
    }
}

/// The text of a reply, without a line feed.
pub fn reply_text(alloc: Global, reply: &Reply) -> Result<Bytes, NoMemory>
    ensures { IfOk result (λ text. text ≡ reply_text reply.now) }
{
    let mut text = List::new(alloc);
    add_reply(&mut text, reply)?;
    Ok(text)
}
