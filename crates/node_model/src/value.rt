ghost use Rattle.std.specs.Prelude.{◌≡◌, IfOk, take};

use crate::cell::Cell;
use cil_base::{Bytes, List, NoMemory, Token};
use il_code::Body;
use pe_image::Facts;
use sig_tree::Sig;
use std::alloc::Global;

/// A row, by its token and its cells in the order of the columns. Columns of signatures, of runs of rows, of RVAs and
/// of offsets are no cells: what they lead to stands in keys of its own.
#[derive(Drop)]
pub struct RowValue {
    pub token: Token,
    pub cells: List<Cell>,
}

/// What a MethodDef row has for a body (ECMA-335 II.22.26, II.25.4).
#[derive(Drop)]
pub enum BodyValue {
    /// Its RVA is 0.
    NoBody,
    /// It is no IL, and stands at this RVA.
    Native(u32),
    /// Its instructions.
    Il(Body),
}

/// What a ManifestResource row names (ECMA-335 II.22.24).
#[derive(Drop)]
pub enum ResourceValue {
    /// Bytes of this image.
    Here(Bytes),
    /// Something in another file or assembly, at this offset.
    Elsewhere(u32),
}

/// What a key holds where it is not at fault.
#[derive(Drop)]
pub enum Value {
    /// Of `Key::Row`.
    Row(RowValue),
    /// Of `Key::Sig`.
    Sig(Sig),
    /// Of `Key::Owned` and of `Key::Linked`.
    Tokens(List<Token>),
    /// Of `Key::Body`.
    Body(BodyValue),
    /// Of `Key::Data`.
    Data(Bytes),
    /// Of `Key::Resource`.
    Resource(ResourceValue),
    /// Of `Key::Facts`.
    Facts(Facts),
}

/// Equal cells of their own.
pub fn copy_cells(alloc: Global, cells: &List<Cell>) -> Result<List<Cell>, NoMemory>
    ensures { IfOk result (λ copy. copy ≡ cells.now) }
{
    let mut all = List::new(alloc);
    for cell in cells.as_slice() {
        all.push(cell.copy(alloc)?)?;
    }
    Ok(all)
}

/// Equal rows of their own.
pub(crate) fn copy_rows(alloc: Global, rows: &List<RowValue>) -> Result<List<RowValue>, NoMemory>
    ensures { IfOk result (λ copy. copy ≡ rows.now) }
{
    let mut all = List::new(alloc);
    for row in rows.as_slice() {
        all.push(row.copy(alloc)?)?;
    }
    Ok(all)
}

impl RowValue {
    /// An equal row of its own.
    pub fn copy(&self, alloc: Global) -> Result<RowValue, NoMemory>
        ensures { IfOk result (λ copy. copy ≡ self.now) }
    {
        let cells = copy_cells(alloc, &self.cells)?;
        Ok(RowValue {
            token: self.token,
            cells,
        })
    }
}

impl BodyValue {
    /// An equal body of its own.
    pub fn copy(&self, _alloc: Global) -> Result<BodyValue, NoMemory>
        ensures { IfOk result (λ copy. copy ≡ self.now) }
    {
        match self {
            BodyValue::NoBody => Ok(BodyValue::NoBody),
            BodyValue::Native(rva) => Ok(BodyValue::Native(*rva)),
            BodyValue::Il(body) => Ok(BodyValue::Il(body.copy()?)),
        }
    }
}

impl ResourceValue {
    /// An equal resource of its own.
    pub fn copy(&self, _alloc: Global) -> Result<ResourceValue, NoMemory>
        ensures { IfOk result (λ copy. copy ≡ self.now) }
    {
        match self {
            ResourceValue::Here(bytes) => Ok(ResourceValue::Here(bytes.copy()?)),
            ResourceValue::Elsewhere(offset) => Ok(ResourceValue::Elsewhere(*offset)),
        }
    }
}

impl Value {
    /// An equal value of its own.
    pub fn copy(&self, alloc: Global) -> Result<Value, NoMemory>
        ensures { IfOk result (λ copy. copy ≡ self.now) }
    {
        match self {
            Value::Row(row) => Ok(Value::Row(row.copy(alloc)?)),
            Value::Sig(sig) => Ok(Value::Sig(sig.copy(alloc)?)),
            Value::Tokens(tokens) => Ok(Value::Tokens(tokens.copy()?)),
            Value::Body(body) => Ok(Value::Body(body.copy(alloc)?)),
            Value::Data(bytes) => Ok(Value::Data(bytes.copy()?)),
            Value::Resource(resource) => Ok(Value::Resource(resource.copy(alloc)?)),
            Value::Facts(facts) => Ok(Value::Facts(facts.copy()?)),
        }
    }
}
