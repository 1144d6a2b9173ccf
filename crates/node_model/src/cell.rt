ghost use Rattle.std.specs.Prelude.{◌≡◌, IfOk};

use cil_base::{Bytes, NoMemory, Token};
use std::alloc::Global;

/// What a cell of a row says (ECMA-335 II.22, II.24.2.6).
#[derive(Drop)]
pub enum Cell {
    /// A number.
    Num(u64),
    /// The text at an index of #Strings, without its zero byte.
    Text(Bytes),
    /// The sixteen bytes of an entry of #GUID, as they stand there.
    Guid([u8; 16]),
    /// The index 0 of #GUID.
    NoGuid,
    /// The bytes of an entry of #Blob, without its length.
    Blob(Bytes),
    /// A row of a table.
    Ref(Token),
    /// The row number 0, whatever table it is of.
    NoRef,
}

impl Cell {
    /// An equal cell of its own.
    pub fn copy(&self, _alloc: Global) -> Result<Cell, NoMemory>
        ensures { IfOk result (λ copy. copy ≡ self.now) }
    {
        match self {
            Cell::Num(number) => Ok(Cell::Num(*number)),
            Cell::Text(text) => Ok(Cell::Text(text.copy()?)),
            Cell::Guid(bytes) => Ok(Cell::Guid(*bytes)),
            Cell::NoGuid => Ok(Cell::NoGuid),
            Cell::Blob(bytes) => Ok(Cell::Blob(bytes.copy()?)),
            Cell::Ref(token) => Ok(Cell::Ref(*token)),
            Cell::NoRef => Ok(Cell::NoRef),
        }
    }
}
