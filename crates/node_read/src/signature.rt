ghost use Rattle.std.specs.Prelude.{◌≡◌, IfOk};
ghost use Rattle.node_model.specs.Signatures.{read_sig, sig_of};
ghost use Rattle.node_read.specs.inner.Opened.{IsRowThere, streams_of};

use crate::columns::number_at;
use crate::streams::Streams;
use cil_base::{NoMemory, Token};
use md_heaps::blob_at;
use md_schema::table;
use node_model::{Fault, FaultKind, Key, Slot, Value, sig_column, sort_fits};
use sig_read::parse_sig;
use sig_tree::Sig;
use std::alloc::Global;

/// The signature of a row. None where there is none that its table may have (ECMA-335 II.23.2).
#[tactic(auto, using(crate::proofs::ColumnLemmas::sig_there), unfolding(node_model::specs::Signatures::sig_of))]
pub(crate) fn sig_of(
    alloc: Global,
    streams: &Streams,
    token: Token,
) -> Result<Option<Sig>, NoMemory>
    requires { IsRowThere (streams_of streams.now) token }
    ensures { IfOk result (λ sig. sig ≡ sig_of (streams_of streams.now) token) }
{
    let Some(column) = sig_column(token.table) else {
        return Ok(None);
    };
    let index = number_at(streams, token, column);
    let Some(bytes) = blob_at(streams.blobs, index) else {
        return Ok(None);
    };
    let Some(sig) = parse_sig(alloc, token.table == table::TYPE_SPEC, bytes)? else {
        return Ok(None);
    };
    if sort_fits(token.table, sig.tree()) {
        Ok(Some(sig))
    } else {
        Ok(None)
    }
}

/// What the signature of a row holds.
#[tactic(auto, unfolding(node_model::specs::Signatures::read_sig))]
pub(crate) fn sig_slot(alloc: Global, streams: &Streams, token: Token) -> Result<Slot, NoMemory>
    requires { IsRowThere (streams_of streams.now) token }
    ensures { IfOk result (λ slot. slot ≡ read_sig (streams_of streams.now) token) }
{
    match sig_of(alloc, streams, token)? {
        Some(sig) => Ok(Slot::Value(Value::Sig(sig))),
        None => Ok(Slot::Fault(Fault {
            key: Key::Sig(token),
            kind: FaultKind::BadSignature,
            column: 0,
        })),
    }
}
