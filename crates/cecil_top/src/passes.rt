//! The passes of an actor, one of each module, in the places of the modules.
ghost use Rattle.std.specs.Prelude.{◌≡◌, ◌<◌, length, slice_get, slice_set, Some, None};
ghost use Rattle.cecil_top.specs.inner.Passes.{HasPassAt};

use cil_base::List;
use shared_module::Pass;

/// Takes the pass of a module out.
pub(crate) fn take_pass(passes: &mut List<Option<Pass>>, place: u32) -> Pass
    requires { HasPassAt passes.old place }
    ensures pass { slice_get passes.old place ≡ Some (Some result) }
    ensures rest { passes.new ≡ slice_set passes.old place None }
{
    let taken = passes.set(place as usize, None);
    taken.unwrap()
}

/// Puts the pass of a module back.
pub(crate) fn put_pass(passes: &mut List<Option<Pass>>, place: u32, pass: Pass)
    requires { place < length passes.old }
    ensures { passes.new ≡ slice_set passes.old place (Some pass) }
{
    let _none = passes.set(place as usize, Some(pass));
}
