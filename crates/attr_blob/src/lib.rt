//! Values of custom attributes (ECMA-335 II.23.3): read from blobs and spelled.
#![tactic(auto)]

mod copy;
mod decode;
mod laws;
mod read_arg;
mod read_leaf;
mod spell;
mod stop;
mod types;
mod value;

pub use decode::decode_attr;
pub use laws::{attr_has_one_reading, attr_is_what_is_spelled};
pub use spell::encode_attr;
pub use value::{Arg, ArgType, AttrRead, AttrValue, EnumWidth, NamedArg};
