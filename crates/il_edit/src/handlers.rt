ghost use Rattle.std.specs.Prelude.{◌≡◌, OnErr, OnOk};
ghost use Rattle.il_code.specs.Edited.{add_handler_refusal, remove_handler_refusal, with_handler, without_handler};
ghost use Rattle.il_edit.specs.Ends.{EditFails, EditRefuses};

use crate::fail::IlFail;
use crate::refused::{add_handler_refused, remove_handler_refused};
use il_code::{Body, Handler, IlRefusal};

/// Adds a handler behind the others. Where it is refused, and where memory is wanting, the body stays as it is.
pub fn add_handler(body: &mut Body, handler: Handler) -> Result<(), IlFail>
    ensures done { OnOk result (body.new ≡ with_handler handler body.old) }
    ensures refused { EditFails result (add_handler_refusal handler body.old) }
    ensures unchanged { OnErr result (body.new ≡ body.old) }
{
    if let Some(refusal) = add_handler_refused(body, &handler) {
        return Err(IlFail::Refused(refusal));
    }
    body.handlers.extend(&[handler])?;
    Ok(())
}

/// Takes handler number `at` out. Where it is refused, the body stays as it is.
pub fn remove_handler(body: &mut Body, at: u32) -> Result<(), IlRefusal>
    ensures done { OnOk result (body.new ≡ without_handler at body.old) }
    ensures refused { EditRefuses result (remove_handler_refusal at body.old) }
    ensures unchanged { OnErr result (body.new ≡ body.old) }
{
    if let Some(refusal) = remove_handler_refused(body, at) {
        return Err(refusal);
    }
    body.handlers.remove(at as usize);
    Ok(())
}
