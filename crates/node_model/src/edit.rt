ghost use Rattle.std.specs.Prelude.{◌≡◌, IfOk};

use crate::cell::Cell;
use crate::value::{BodyValue, ResourceValue};
use cil_base::{Bytes, List, NoMemory, Token};
use il_code::{Handler, Instr};
use sig_tree::Sig;
use std::alloc::Global;

/// The signature of a new row, or none where its table has none.
#[derive(Drop)]
pub enum OptSig {
    None,
    Is(Sig),
}

/// A change of the graph. Columns, places in lists, instructions and handlers are counted from 0.
#[derive(Drop)]
pub enum Edit {
    /// The cell of a row in a column, by its number among all columns of the table (ECMA-335 II.22).
    Set {
        token: Token,
        column: u8,
        cell: Cell,
    },
    /// The signature of a row.
    SetSig {
        token: Token,
        sig: Sig,
    },
    /// The body of a method.
    SetBody {
        token: Token,
        body: BodyValue,
    },
    /// The data of a FieldRVA row.
    SetData {
        token: Token,
        bytes: Bytes,
    },
    /// What a ManifestResource row names.
    SetResource {
        token: Token,
        value: ResourceValue,
    },
    /// The entry point of the image: a MethodDef or a File row, or the root for none (ECMA-335 II.25.3.3.2).
    SetEntry {
        token: Token,
    },
    /// A new row of a table, last in the lists in which it stands: that of the root, or those of the rows that its link
    /// columns name.
    Add {
        table: u8,
        cells: List<Cell>,
        sig: OptSig,
    },
    /// A new row of a table, before place `at` of the list that its owner has, which may be the root.
    Insert {
        owner: Token,
        table: u8,
        at: u32,
        cells: List<Cell>,
        sig: OptSig,
    },
    /// A row leaves the list of its owner, which may be the root, and is no more.
    Remove {
        owner: Token,
        token: Token,
    },
    /// An instruction, put in before number `at` of a method's code.
    IlInsert {
        token: Token,
        at: u32,
        instr: Instr,
    },
    /// Instruction number `at` of a method's code is taken out.
    IlRemove {
        token: Token,
        at: u32,
    },
    /// An instruction in place of number `at` of a method's code.
    IlReplace {
        token: Token,
        at: u32,
        instr: Instr,
    },
    /// What the header of a method's body says. `locals` is a StandAloneSig row, or the root for none (ECMA-335
    /// II.25.4.3).
    IlHead {
        token: Token,
        max_stack: u16,
        init_locals: bool,
        locals: Token,
    },
    /// A handler of a method's body, behind the others.
    AddHandler {
        token: Token,
        handler: Handler,
    },
    /// Handler number `at` of a method's body is taken out.
    RemoveHandler {
        token: Token,
        at: u32,
    },
}

impl OptSig {
    /// An equal signature of its own, or none.
    pub fn copy(&self, alloc: Global) -> Result<OptSig, NoMemory>
        ensures { IfOk result (λ copy. copy ≡ self.now) }
    {
        match self {
            OptSig::None => Ok(OptSig::None),
            OptSig::Is(sig) => Ok(OptSig::Is(sig.copy(alloc)?)),
        }
    }
}
