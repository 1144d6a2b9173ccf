ghost use Rattle.std.specs.Prelude.{◌≡◌, IfOk, OnErr, OnOk, take};
ghost use Rattle.std.specs.Option.{option_map};
ghost use Rattle.resolver.specs.Machine.{with_name};

use crate::parameters::{Asked, Parameter};
use attr_blob::{ArgType, EnumWidth};
use cil_base::{Bytes, List, NoMemory};
use std::alloc::Global;

/// What is known of an attribute once the signature of its constructor is.
#[derive(Drop)]
pub(crate) struct Reading {
    pub blob: Bytes,
    pub params: List<Parameter>,
    /// The classes and value types among the parameters.
    pub asked: List<Asked>,
    /// The names of the first of these.
    pub names: List<Bytes>,
    /// The types of the arguments, once all names are known.
    pub types: List<ArgType>,
    /// The enums whose widths are known.
    pub widths: List<EnumWidth>,
    /// The name of the enum that is looked for.
    pub wanted: Bytes,
}

/// Equal names of their own.
pub(crate) fn copy_names(alloc: Global, names: &[Bytes]) -> Result<List<Bytes>, NoMemory>
    ensures { IfOk result (λ copy. copy ≡ names.now) }
{
    let mut all = List::new(alloc);
    for name in names {
        all.push(name.copy()?)?;
    }
    Ok(all)
}

fn copy_types(alloc: Global, types: &[ArgType]) -> Result<List<ArgType>, NoMemory>
    ensures { IfOk result (λ copy. copy ≡ types.now) }
{
    let mut all = List::new(alloc);
    for ty in types {
        all.push(ty.copy(alloc)?)?;
    }
    Ok(all)
}

fn copy_widths(alloc: Global, widths: &[EnumWidth]) -> Result<List<EnumWidth>, NoMemory>
    ensures { IfOk result (λ copy. copy ≡ widths.now) }
{
    let mut all = List::new(alloc);
    for width in widths {
        all.push(width.copy()?)?;
    }
    Ok(all)
}

impl Reading {
    /// An equal reading of its own.
    pub(crate) fn copy(&self, alloc: Global) -> Result<Reading, NoMemory>
        ensures { IfOk result (λ copy. copy ≡ self.now) }
    {
        let blob = self.blob.copy()?;
        let params = self.params.copy()?;
        let asked = self.asked.copy()?;
        let names = copy_names(alloc, self.names.as_slice())?;
        let types = copy_types(alloc, self.types.as_slice())?;
        let widths = copy_widths(alloc, self.widths.as_slice())?;
        let wanted = self.wanted.copy()?;
        Ok(Reading {
            blob,
            params,
            asked,
            names,
            types,
            widths,
            wanted,
        })
    }
}

/// One name more. `NoMemory` changes nothing.
pub(crate) fn add_name(reading: &mut Option<Reading>, name: Bytes) -> Result<(), NoMemory>
    ensures ok { OnOk result (reading.new ≡ option_map (with_name name) reading.old) }
    ensures err { OnErr result (reading.new ≡ reading.old) }
{
    match reading {
        Some(reading) => reading.names.push(name),
        None => Ok(()),
    }
}
