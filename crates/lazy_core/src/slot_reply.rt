ghost use Rattle.std.specs.Prelude.{◌≡◌, true};
ghost use Rattle.lazy_core.specs.inner.Replies.{fits_key, slot_reply_of};
ghost use Rattle.node_model.specs.declared.slot.Slot.TheVariants as slots;

use node_model::{Key, Reply, Slot, Value};

/// The reply by the value that a key holds.
#[tactic(auto, using(crate::proofs::ValueLemmas::value_said))]
fn value_reply(key: Key, value: Value) -> Reply
    requires { fits_key key (slots.Value value) ≡ true }
    ensures { result ≡ slot_reply_of key (slots.Value value) }
{
    match value {
        Value::Row(row) => Reply::Row(row),
        Value::Sig(sig) => Reply::Sig(key.token(), sig),
        Value::Tokens(list) => Reply::Tokens(key, list),
        Value::Body(body) => Reply::Body(key.token(), body),
        Value::Data(bytes) => Reply::Data(key.token(), bytes),
        Value::Resource(value) => Reply::Resource(key.token(), value),
        Value::Facts(facts) => Reply::Facts(facts),
    }
}

/// The reply to a query that looks at one key, by what the key holds, which is moved into the reply.
#[tactic(auto, using(crate::proofs::ValueLemmas::fault_said))]
pub(crate) fn slot_reply(key: Key, slot: Slot) -> Reply
    requires { fits_key key slot ≡ true }
    ensures { result ≡ slot_reply_of key slot }
{
    match slot {
        Slot::Value(value) => value_reply(key, value),
        Slot::Fault(fault) => Reply::Fault(fault),
    }
}
