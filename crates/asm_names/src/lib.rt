//! How an assembly and a GUID are named in text: the token of a public key, an assembly's full name, and a stored GUID
//! (ECMA-335 II.6.2.1.3, II.6.3, II.24.2.5).
#![tactic(auto)]

mod assembly;
mod guid;
mod hex;
mod key;

pub use assembly::assembly_text;
pub use guid::guid_text;
pub use key::public_key_token;
