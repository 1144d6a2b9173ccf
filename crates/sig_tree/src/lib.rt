//! Signatures of ECMA-335 (II.23.2) as trees: which trees are signatures, compared, copied, their type tokens listed and
//! replaced. Its definitions say too how a signature is spelled, which one a blob spells, and how one is printed.
#![tactic(auto)]

mod bounds;
mod copy;
pub mod element_type;
mod laws;
mod piece;
mod replace;
mod same;
mod sig;
mod symbol;
mod token_list;
mod tree;
mod type_token;

pub use bounds::{DEPTH_LIMIT, is_kind, is_prim};
pub use laws::{one_reading, own_texts_print, replaced_tokens, spelling_is_read_back, tree_reads};
pub use piece::Piece;
pub use replace::with_tokens;
pub use same::same_sig;
pub use sig::Sig;
pub use symbol::Symbol;
pub use token_list::sig_tokens;
pub use tree::{Arity, MethodSig, Sentinel, SigTree, TypeSig};
pub use type_token::names_type;
