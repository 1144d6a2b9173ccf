//! The bytes of the type of a field that has data (ECMA-335 II.22.8, II.23.1.16, II.23.2.4).

ghost use Rattle.std.specs.Prelude.{◌≡◌};
ghost use Rattle.node_model.specs.Data.{prim_size};
ghost use Rattle.write_plan.specs.Unfit.{class_size, data_size, field_size, first_class_size, type_size};
ghost use Rattle.write_plan.specs.inner.Taken.{value_kept};

use crate::held::{list_members, row_held, sig_in};
use crate::kept::Kept;
use crate::row_cells::{number_named, token_named};
use cil_base::Token;
use md_schema::{Link, table};
use node_model::Key;
use sig_tree::{SigTree, TypeSig};

/// The bytes of a primitive type, by its element type (ECMA-335 II.23.1.16).
fn prim_size(code: u8) -> Option<u64>
    ensures { result ≡ prim_size code }
{
    match code {
        0x02 | 0x04 | 0x05 => Some(1),
        0x03 | 0x06 | 0x07 => Some(2),
        0x08 | 0x09 | 0x0c => Some(4),
        0x0a | 0x0b | 0x0d => Some(8),
        _ => None,
    }
}

/// The ClassSize of the first of these ClassLayout rows.
fn first_class_size(kept: &Kept, layouts: &[Token]) -> Option<u64>
    ensures { result ≡ first_class_size (value_kept kept.now) layouts.now }
{
    match layouts {
        [layout, ..] => match row_held(kept, *layout) {
            Some(row) => Some(number_named(row, b"ClassSize")),
            None => None,
        },
        [] => None,
    }
}

/// The bytes of a value type: the ClassSize of the first ClassLayout row of a TypeDef (ECMA-335 II.22.8).
fn class_size(kept: &Kept, token: Token) -> Option<u64>
    ensures { result ≡ class_size (value_kept kept.now) token }
{
    if token.table != table::TYPE_DEF {
        return None;
    }
    first_class_size(
        kept,
        list_members(kept.value(&Key::Linked(token, Link::ClassLayout))),
    )
}

/// The bytes of a type: modifiers are passed over, and most types have no size.
fn type_size(kept: &Kept, sig: &TypeSig) -> Option<u64>
    ensures { result ≡ type_size (value_kept kept.now) sig.now }
{
    match sig {
        TypeSig::Prim(code) => prim_size(*code),
        TypeSig::Value(token) => class_size(kept, *token),
        TypeSig::Mod { inner, .. } => type_size(kept, inner.get()),
        _ => None,
    }
}

/// The bytes of a field by its signature.
fn field_size(kept: &Kept, sig: &SigTree) -> Option<u64>
    ensures { result ≡ field_size (value_kept kept.now) sig.now }
{
    match sig {
        SigTree::Field(sig) => type_size(kept, sig),
        _ => None,
    }
}

/// The bytes of the type of the field that a FieldRVA row names.
pub(crate) fn data_size(kept: &Kept, token: Token) -> Option<u64>
    ensures { result ≡ data_size (value_kept kept.now) token }
{
    let row = row_held(kept, token)?;
    let field = token_named(row, b"Field")?;
    let sig = sig_in(kept, field)?;
    field_size(kept, sig.tree())
}
