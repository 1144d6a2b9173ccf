ghost use Rattle.std.specs.Prelude.{◌≡◌, IfOk};

use crate::value::{Arg, ArgType, AttrRead, AttrValue, EnumWidth, NamedArg};
use cil_base::{Boxed, List, NoMemory};
use std::alloc::Global;

impl ArgType {
    /// An equal type of its own.
    pub fn copy(&self, alloc: Global) -> Result<ArgType, NoMemory>
        ensures { IfOk result (λ copy. copy ≡ self.now) }
    {
        match self {
            ArgType::Prim(elem) => Ok(ArgType::Prim(*elem)),
            ArgType::Text => Ok(ArgType::Text),
            ArgType::SystemType => Ok(ArgType::SystemType),
            ArgType::Boxed => Ok(ArgType::Boxed),
            ArgType::Enum(name) => Ok(ArgType::Enum(name.copy()?)),
            ArgType::Array(elem) => {
                let elem = elem.get().copy(alloc)?;
                Ok(ArgType::Array(Boxed::new(alloc, elem)?))
            }
        }
    }
}

impl Arg {
    /// An equal argument of its own.
    #[cycle(copy)]
    pub fn copy(&self, alloc: Global) -> Result<Arg, NoMemory>
        ensures { IfOk result (λ copy. copy ≡ self.now) }
    {
        match self {
            Arg::Num { elem, bits } => Ok(Arg::Num {
                elem: *elem,
                bits: *bits,
            }),
            Arg::Text(text) => Ok(Arg::Text(text.copy()?)),
            Arg::NullText => Ok(Arg::NullText),
            Arg::TypeName(name) => Ok(Arg::TypeName(name.copy()?)),
            Arg::NullType => Ok(Arg::NullType),
            Arg::Boxed(ty, value) => Ok(Arg::Boxed(
                ty.copy(alloc)?,
                copy_boxed(alloc, value.get())?,
            )),
            Arg::Enum { name, elem, bits } => Ok(Arg::Enum {
                name: name.copy()?,
                elem: *elem,
                bits: *bits,
            }),
            Arg::Array(elem, items) => Ok(Arg::Array(
                elem.copy(alloc)?,
                copy_args(alloc, items.as_slice())?,
            )),
            Arg::NullArray(elem) => Ok(Arg::NullArray(elem.copy(alloc)?)),
        }
    }
}

#[cycle(copy)]
fn copy_boxed(alloc: Global, arg: &Arg) -> Result<Boxed<Arg>, NoMemory>
    ensures { IfOk result (λ copy. copy ≡ arg.now) }
{
    Boxed::new(alloc, arg.copy(alloc)?)
}

#[cycle(copy)]
fn copy_args(alloc: Global, args: &[Arg]) -> Result<List<Arg>, NoMemory>
    ensures { IfOk result (λ copy. copy ≡ args.now) }
{
    let mut all = List::new(alloc);
    for arg in args {
        all.push(arg.copy(alloc)?)?;
    }
    Ok(all)
}

impl NamedArg {
    /// An equal argument of its own.
    pub fn copy(&self, alloc: Global) -> Result<NamedArg, NoMemory>
        ensures { IfOk result (λ copy. copy ≡ self.now) }
    {
        let ty = self.ty.copy(alloc)?;
        let name = self.name.copy()?;
        let value = self.value.copy(alloc)?;
        Ok(NamedArg {
            property: self.property,
            ty,
            name,
            value,
        })
    }
}

fn copy_named(alloc: Global, args: &[NamedArg]) -> Result<List<NamedArg>, NoMemory>
    ensures { IfOk result (λ copy. copy ≡ args.now) }
{
    let mut all = List::new(alloc);
    for arg in args {
        all.push(arg.copy(alloc)?)?;
    }
    Ok(all)
}

impl AttrValue {
    /// An equal value of its own.
    pub fn copy(&self) -> Result<AttrValue, NoMemory>
        ensures { IfOk result (λ copy. copy ≡ self.now) }
    {
        let alloc = self.fixed.allocator();
        let fixed = copy_args(alloc, self.fixed.as_slice())?;
        let named = copy_named(alloc, self.named.as_slice())?;
        Ok(AttrValue { fixed, named })
    }
}

impl EnumWidth {
    /// An equal width of its own.
    pub fn copy(&self) -> Result<EnumWidth, NoMemory>
        ensures { IfOk result (λ copy. copy ≡ self.now) }
    {
        let name = self.name.copy()?;
        Ok(EnumWidth {
            name,
            elem: self.elem,
        })
    }
}

impl AttrRead {
    /// An equal answer of its own.
    pub fn copy(&self) -> Result<AttrRead, NoMemory>
        ensures { IfOk result (λ copy. copy ≡ self.now) }
    {
        match self {
            AttrRead::Value(value) => Ok(AttrRead::Value(value.copy()?)),
            AttrRead::Unknown(name) => Ok(AttrRead::Unknown(name.copy()?)),
            AttrRead::Bad => Ok(AttrRead::Bad),
        }
    }
}
