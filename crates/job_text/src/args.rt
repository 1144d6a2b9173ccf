ghost use Rattle.std.specs.Prelude.{◌≡◌};
ghost use Rattle.job_text.specs.Args.{no_args};

use cil_base::{Bytes, List, Token};
use il_code::{Handler, HandlerKind, Operand};
use md_schema::Link;
use node_model::{Cell, OptSig, OptText};
use std::alloc::Global;

/// What the arguments of a command say, each in its place, as far as they have been read.
#[derive(Drop)]
pub struct Args {
    pub module: u32,
    pub token: Token,
    /// The table of the row that the token stands for, or else the one that was named after it.
    pub table: u8,
    /// The owner of the row, or the row of the local variables.
    pub other: Token,
    pub link: Link,
    pub column: u8,
    pub cell: Cell,
    pub cells: List<Cell>,
    pub sig: OptSig,
    pub at: u32,
    pub max_stack: u16,
    pub init_locals: bool,
    pub namespace: Bytes,
    pub name: Bytes,
    pub text: OptText,
    pub bytes: Bytes,
    pub code: u16,
    pub operand: Operand,
    pub handler: Handler,
}

impl Args {
    /// No argument has been read.
    pub(crate) fn new(alloc: Global) -> Args
        ensures { result ≡ no_args }
    {
        Args {
            module: 0,
            token: Token::ROOT,
            table: 0,
            other: Token::ROOT,
            link: Link::InterfaceImpl,
            column: 0,
            cell: Cell::NoRef,
            cells: List::new(alloc),
            sig: OptSig::None,
            at: 0,
            max_stack: 0,
            init_locals: false,
            namespace: List::new(alloc),
            name: List::new(alloc),
            text: OptText::None,
            bytes: List::new(alloc),
            code: 0,
            operand: Operand::None,
            handler: Handler {
                kind: HandlerKind::Finally,
                try_start: 0,
                try_end: 0,
                start: 0,
                end: 0,
            },
        }
    }
}
