//! The images of a run, each with a core of its own.
ghost use Rattle.std.specs.Prelude.{◌≡◌, ◌≤◌, ◌∷◌, ◌++◌, [], All, Err, IfErr, IfOk, IsUtf8, OnOk, map};
ghost use Rattle.cecil_inspect.specs.Inspect.{IsReadImage};
ghost use Rattle.cecil_top.specs.ToolFiles.{AreImages};
ghost use Rattle.cecil_top.specs.Untouched.{AreUntouched};
ghost use Rattle.cecil_top.specs.inner.ToolSteps.{EndsImage, EndsImages, OpensCore};
ghost use Rattle.cil_outside.specs.Causes.{Rose};
ghost use Rattle.lazy_core.specs.Slots.{CoreState};

use crate::job_file::read_file;
use cecil_inspect::{MAX_IMAGE_LENGTH, Status, refused_status};
use cil_base::{Bytes, List, NoMemory};
use cil_outside::Folder;
use lazy_core::Core;
use node_read::{Image, OpenRefusal};
use std::alloc::Global;
use std::sync::Arc;

/// The core of an image, with nothing filled.
fn core_of(alloc: Global, image: Image) -> Result<Core, NoMemory>
    ensures { IfOk result (λ core. (core.bytes ≡ image) × (core.history ≡ [])) }
{
    let image = Arc::new(alloc, image)?;
    Core::open(alloc, image)
}

/// The core of a file, which is moved in, or its refusal.
fn core_in(alloc: Global, file: Vec<u8>) -> Result<Core, OpenRefusal>
    ensures { OpensCore file.items result }
{
    let image = Image::open(alloc, file)?;
    match core_of(alloc, image) {
        Ok(core) => Ok(core),
        Err(NoMemory) => Err(OpenRefusal::NoMemory),
    }
}

/// The core of the image of a name, or the status that reading it ends with.
fn open_image<F: Folder>(alloc: Global, folder: &mut F, name: &str) -> Result<Core, Status>
    ensures image { IfOk result (λ core. IsReadImage (F.files folder.old) name.now core.bytes) }
    ensures untouched { IfOk result (λ core. core.history ≡ []) }
    ensures status { IfErr result (λ status. EndsImage (F.files folder.old) name.now status) }
    ensures read { result ≡ Err Status.ReadFault → Rose (F.faults folder.old) (F.faults folder.new) }
    ensures files { F.files folder.new ≡ F.files folder.old }
    ensures later { F.faults folder.old ≤ F.faults folder.new }
{
    let bytes = read_file(alloc, folder, name, MAX_IMAGE_LENGTH)?;
    match core_in(alloc, bytes.into_vec()) {
        Ok(core) => Ok(core),
        Err(cause) => Err(refused_status(alloc, name, cause)),
    }
}

/// The text that bytes are.
fn text_of(name: &Bytes) -> &str
    requires { IsUtf8 name.now }
    ensures { result.now ≡ name.now }
{
    match str::from_utf8(name.as_slice()) {
        Ok(text) => text,
        Err(_) => unreachable!(),
    }
}

/// Puts a core behind the others.
fn push_core(cores: &mut List<Core>, core: Core) -> Result<(), Status>
    ensures core { OnOk result (cores.new ≡ cores.old ++ core ∷ []) }
    ensures memory { IfErr result (λ status. status ≡ Status.NoMemory) }
{
    match cores.push(core) {
        Ok(()) => Ok(()),
        Err(NoMemory) => Err(Status::NoMemory),
    }
}

/// The cores of the images of these names, read and opened one after the other, or the status of the first that is not
/// taken.
pub(crate) fn open_images<F: Folder>(
    alloc: Global,
    folder: &mut F,
    names: &[Bytes],
) -> Result<List<Core>, Status>
    requires { All IsUtf8 names.now }
    ensures images { IfOk result (λ cores.
        AreImages (F.files folder.old) names.now (map (λ (core : CoreState). core.bytes) cores)) }
    ensures untouched { IfOk result (λ cores. AreUntouched cores) }
    ensures status { IfErr result (λ status. EndsImages (F.files folder.old) names.now status) }
    ensures read { result ≡ Err Status.ReadFault → Rose (F.faults folder.old) (F.faults folder.new) }
    ensures files { F.files folder.new ≡ F.files folder.old }
    ensures later { F.faults folder.old ≤ F.faults folder.new }
{
    let mut cores = List::new(alloc);
    for name in names {
        let core = open_image(alloc, folder, text_of(name))?;
        push_core(&mut cores, core)?;
    }
    Ok(cores)
}
