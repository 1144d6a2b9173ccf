ghost use Rattle.std.specs.Prelude.{◌≡◌, ◌≢◌, ◌⊎◌, ◌++◌, ℕ, List, Some, map, string_bytes};
ghost use Rattle.cecil_top.specs.Tool.{IsRunOf, IsWholeJob};
ghost use Rattle.cecil_top.specs.ToolWords.{job_asked};
ghost use Rattle.cil_outside.specs.SoundFolder.{held_files};
ghost use Rattle.cil_outside.specs.SoundOutlet.{held_text};

use crate::program::tool;
use cecil_inspect::Status;
use cil_outside::{SoundFolder, SoundOutlet};
use shared_module::Decoder;
use std::alloc::Global;
use std::sync::Wait;
use std::thread::Threads;

/// `tool` over files and an outlet in memory of which no call fails, with its promise in plain words: where the named
/// file is a job of which each module is an image, the text of a run of it is added, but for want of memory; and where
/// the status is not Ok nothing is.
pub fn tool_sound<R: Threads + Wait + Sync, G: Decoder + Sync>(
    rt: &R,
    alloc: Global,
    words: &[String],
    folder: &mut SoundFolder,
    out: &mut SoundOutlet,
    gate: &G,
) -> Status
    ensures done { (name : List ℕ) → job_asked (map string_bytes words.now) ≡ Some name
        → IsWholeJob (Some (held_files folder.old)) name
        → ((result ≡ Status.Ok) × ((text : List ℕ) × IsRunOf (Some (held_files folder.old)) name text
        × (held_text out.new ≡ held_text out.old ++ text)))
        ⊎ (result ≡ Status.NoMemory) }
    ensures quiet { result ≢ Status.Ok → held_text out.new ≡ held_text out.old }
{
    tool(rt, alloc, words, folder, out, gate)
}
