//! Headers of bodies (ECMA-335 II.25.4.2 and II.25.4.3). The tiny one is a byte: 2 in its low two bits, the code's size
//! above.
//!
//! | offset | size | fat header |
//! |---|---|---|
//! | 0 | 2 | flags, with 3 in the low two bits, and 3 in the upper four |
//! | 2 | 2 | max stack |
//! | 4 | 4 | the code's size in bytes |
//! | 8 | 4 | the token of the locals, or 0 |

use cil_base::Token;

/// What a header says.
#[derive(Clone, Copy)]
pub struct Header {
    /// Where the code begins, in bytes from the header's first.
    pub start: u32,
    /// The code's size in bytes.
    pub size: u32,
    pub max_stack: u16,
    pub init_locals: bool,
    pub locals: Token,
    /// Whether sections follow the code.
    pub sections: bool,
}
