//! Edits, by the words behind `edit`:
//!
//! | words | edit |
//! |---|---|
//! | `remove OWNER TOKEN` | a row is removed |
//! | `type` | a TypeDef row without a name is added |
//! | `il TOKEN`, `nobody TOKEN` | a method has a body without instructions, or none |
//! | `entry TOKEN` | the entry point |
//! | `data TOKEN HEX`, `resource TOKEN HEX` | the data of a field, the bytes of a resource |
//! | `elsewhere TOKEN` | a resource that stands elsewhere, at 0 |

use crate::words::{bytes, token, word};
use cil_base::{List, NoMemory, Token};
use il_code::Body;
use node_model::{BodyValue, Cell, Edit, OptSig, ResourceValue};
use std::alloc::Global;

/// The table of types.
const TYPE_DEF: u8 = 0x02;

/// A type without a name is added.
fn add_type(alloc: Global) -> Result<Edit, NoMemory> {
    let mut cells = List::new(alloc);
    cells.push(Cell::Num(0))?;
    cells.push(Cell::Text(List::new(alloc)))?;
    cells.push(Cell::Text(List::new(alloc)))?;
    cells.push(Cell::NoRef)?;
    Ok(Edit::Add {
        table: TYPE_DEF,
        cells,
        sig: OptSig::None,
    })
}

/// A method has a body without instructions.
fn set_empty_body(alloc: Global, token: Token) -> Edit {
    let body = Body {
        max_stack: 8,
        init_locals: false,
        locals: Token::ROOT,
        code: List::new(alloc),
        handlers: List::new(alloc),
    };
    Edit::SetBody {
        token,
        body: BodyValue::Il(body),
    }
}

/// The bytes of a resource.
fn set_resource(alloc: Global, token: Token, text: &str) -> Result<Edit, NoMemory> {
    Ok(Edit::SetResource {
        token,
        value: ResourceValue::Here(bytes(alloc, text)?),
    })
}

/// The data of a field.
fn set_data(alloc: Global, token: Token, text: &str) -> Result<Edit, NoMemory> {
    Ok(Edit::SetData {
        token,
        bytes: bytes(alloc, text)?,
    })
}

/// The edit of the words of a line.
pub fn edit(alloc: Global, line: &str) -> Result<Edit, NoMemory> {
    let of = token(word(line, 2));
    match word(line, 1) {
        "remove" => Ok(Edit::Remove {
            owner: of,
            token: token(word(line, 3)),
        }),
        "type" => add_type(alloc),
        "il" => Ok(set_empty_body(alloc, of)),
        "nobody" => Ok(Edit::SetBody {
            token: of,
            body: BodyValue::NoBody,
        }),
        "data" => set_data(alloc, of, word(line, 3)),
        "resource" => set_resource(alloc, of, word(line, 3)),
        "elsewhere" => Ok(Edit::SetResource {
            token: of,
            value: ResourceValue::Elsewhere(0),
        }),
        _ => Ok(Edit::SetEntry { token: of }),
    }
}
