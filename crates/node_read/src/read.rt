ghost use Rattle.std.specs.Prelude.{◌≡◌, IfOk, true};
ghost use Rattle.node_model.specs.Immediate.{read};
ghost use Rattle.node_model.specs.Keys.{is_key};

use crate::body::read_body;
use crate::field_data::read_data;
use crate::image::Image;
use crate::linked::linked_slot;
use crate::lists::owned_slot;
use crate::resource::read_resource;
use crate::row::row_slot;
use crate::signature::sig_slot;
use cil_base::NoMemory;
use node_model::{Key, Slot, Value};
use std::alloc::Global;

/// What a key of the image holds in the file: its value, or its one fault. Asks for a key of the image: of a row that
/// it has, and of a kind that the row's table has (ECMA-335 II.22 to II.25).
pub fn read_key(alloc: Global, image: &Image, key: &Key) -> Result<Slot, NoMemory>
    requires { is_key image.now key.now ≡ true }
    ensures { IfOk result (λ slot. slot ≡ read image.now key.now) }
{
    let streams = image.streams();
    match key {
        Key::Row(token) => row_slot(alloc, &streams, *token),
        Key::Sig(token) => sig_slot(alloc, &streams, *token),
        Key::Owned(token, table) => owned_slot(alloc, &streams, *token, *table),
        Key::Linked(token, link) => linked_slot(alloc, &streams, *token, *link),
        Key::Body(token) => read_body(alloc, image, *token),
        Key::Data(token) => read_data(alloc, image, *token),
        Key::Resource(token) => read_resource(alloc, image, *token),
        Key::Facts => Ok(Slot::Value(Value::Facts(image.facts().copy()?))),
    }
}
