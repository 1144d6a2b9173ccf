ghost use Rattle.std.specs.Prelude.{◌≡◌, IfOk};
ghost use Rattle.cecil_inspect.specs.Lines.{lines_of};
ghost use Rattle.cecil_inspect.specs.Steps.{Makes};

use crate::dump::add_dump;
use crate::show::add_show;
use crate::words::Request;
use cil_base::{Bytes, List, NoMemory};
use node_read::{Image, OpenRefusal};
use std::alloc::Global;

/// The lines of an image.
fn image_lines(alloc: Global, image: &Image, request: Request) -> Result<Bytes, NoMemory>
    ensures { IfOk result (λ text. text ≡ lines_of image.now request) }
{
    let mut text = List::new(alloc);
    match request {
        Request::Dump => add_dump(alloc, &mut text, image)?,
        Request::Show(token) => add_show(alloc, &mut text, image, token)?,
    }
    Ok(text)
}

/// The lines of a file, which is moved in, or its refusal. No index of the links is made, since the lines ask for the links
/// of one row at most.
pub(crate) fn file_lines(
    alloc: Global,
    file: Vec<u8>,
    request: Request,
) -> Result<Bytes, OpenRefusal>
    ensures { Makes result file.items request }
{
    let image = Image::open_unindexed(alloc, file)?;
    match image_lines(alloc, &image, request) {
        Ok(text) => Ok(text),
        Err(NoMemory) => Err(OpenRefusal::NoMemory),
    }
}
