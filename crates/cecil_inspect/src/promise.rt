ghost use Rattle.std.specs.Prelude.{◌≡◌, ◌≢◌, ◌⊎◌, ◌++◌, ◌^◌, ℕ, List, Some, false, length, map, nat_lt, string_bytes};
ghost use Rattle.cil_outside.specs.Folder.{content_of};
ghost use Rattle.cil_outside.specs.SoundFolder.{held_files};
ghost use Rattle.cil_outside.specs.SoundOutlet.{held_text};
ghost use Rattle.node_read.specs.Image.{IsImageFile};
ghost use Rattle.cecil_inspect.specs.Lines.{lines_of};
ghost use Rattle.cecil_inspect.specs.Words.{asked};
ghost use Rattle.cecil_inspect.specs.declared.words.Request.{Request};

use crate::run::inspect;
use crate::status::Status;
use cil_outside::{SoundFolder, SoundOutlet};
use std::alloc::Global;

/// `inspect` over files and an outlet in memory of which no call fails, with its promise in plain words: the lines that
/// are asked of an image within 2^26 bytes are added, but for want of memory; and where the status is not Ok nothing
/// is.
pub fn inspect_sound(
    alloc: Global,
    words: &[String],
    folder: &mut SoundFolder,
    out: &mut SoundOutlet,
) -> Status
    ensures done { (name b : List ℕ) (request : Request) → asked (map string_bytes words.now) ≡ Some (name, request)
        → content_of (held_files folder.old) name ≡ Some b → nat_lt (2 ^ 26) (length b) ≡ false → IsImageFile b
        → ((result ≡ Status.Ok) × (held_text out.new ≡ held_text out.old ++ lines_of b request))
        ⊎ (result ≡ Status.NoMemory) }
    ensures quiet { result ≢ Status.Ok → held_text out.new ≡ held_text out.old }
{
    inspect(alloc, words, folder, out)
}
