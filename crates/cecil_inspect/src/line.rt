ghost use Rattle.std.specs.Prelude.{◌≡◌, ◌++◌, IfOk, OnOk};
ghost use Rattle.dump_text.specs.ReplyText.{reply_text};
ghost use Rattle.cecil_inspect.specs.Lines.{file_reply, line, reply_line};

use cil_base::{Bytes, NoMemory};
use dump_text::add_reply;
use lazy_core::image_reply;
use node_model::{Query, Reply};
use node_read::Image;
use std::alloc::Global;

/// The reply to a query over an image to which nothing was done.
#[tactic(auto, unfolding(crate::specs::Lines::file_reply))]
pub(crate) fn reply_of(alloc: Global, image: &Image, query: &Query) -> Result<Reply, NoMemory>
    ensures { IfOk result (λ said. said ≡ file_reply image.now query.now) }
{
    image_reply(alloc, image, query)
}

/// Adds the line of a reply.
pub(crate) fn add_said(text: &mut Bytes, said: &Reply) -> Result<(), NoMemory>
    ensures { OnOk result (text.new ≡ text.old ++ line (reply_text said.now)) }
{
    add_reply(text, said)?;
    text.push(b'\n')
}

/// Adds the line of the reply to a query over an image to which nothing was done.
#[tactic(auto, unfolding(crate::specs::Lines::reply_line))]
pub(crate) fn add_line(
    alloc: Global,
    text: &mut Bytes,
    image: &Image,
    query: &Query,
) -> Result<(), NoMemory>
    ensures { OnOk result (text.new ≡ text.old ++ reply_line image.now query.now) }
{
    let said = reply_of(alloc, image, query)?;
    add_said(text, &said)
}
