ghost use Rattle.std.specs.Prelude.{◌≡◌, IfOk};

use cil_base::{List, NoMemory};

/// Where that stands which rows lead to, each in the order in which the rows are written.
#[derive(Drop)]
pub struct Placed {
    /// An RVA for each MethodDef row (ECMA-335 II.22.26).
    pub bodies: List<u32>,
    /// An RVA for each FieldRVA row (ECMA-335 II.22.18).
    pub field_bytes: List<u32>,
    /// An offset for each ManifestResource row (ECMA-335 II.22.24).
    pub resources: List<u32>,
}

impl Placed {
    /// Equal numbers of its own.
    pub fn copy(&self) -> Result<Placed, NoMemory>
        ensures { IfOk result (λ copy. copy ≡ self.now) }
    {
        let bodies = self.bodies.copy()?;
        let field_bytes = self.field_bytes.copy()?;
        let resources = self.resources.copy()?;
        Ok(Placed {
            bodies,
            field_bytes,
            resources,
        })
    }
}
