ghost use Rattle.std.specs.Prelude.{◌≡◌, [], IfOk, IfSome};

use cil_base::NoMemory;
use lazy_core::Core;
use node_read::Image;
use std::alloc::Global;
use std::fs;
use std::io::Read;
use std::rt::Files;
use std::sync::Arc;

/// The bytes of a file of the current folder, as far as it can be read.
pub fn file<R: Files>(alloc: Global, rt: &R, name: &str) -> Vec<u8> {
    let mut bytes = Vec::new(alloc);
    if let Ok(mut file) = fs::open(rt, name) {
        let _read = file.read_to_end(&mut bytes);
    }
    bytes
}

/// The core of an image; none where the bytes are none.
pub fn core_of(alloc: Global, bytes: &[u8]) -> Result<Option<Core>, NoMemory>
    ensures { IfOk result (λ o. IfSome o (λ core. core.history ≡ [])) }
{
    let Ok(image) = Image::open(alloc, Vec::from_slice(alloc, bytes)?) else {
        return Ok(None);
    };
    let core = Core::open(alloc, Arc::new(alloc, image)?)?;
    Ok(Some(core))
}
