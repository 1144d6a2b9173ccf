ghost use Rattle.std.specs.Prelude.{◌≡◌, ◌∷◌, [], true, false, drop, MatchOption};
ghost use Rattle.cil_base.specs.inner.Reading.{compressed_at};
ghost use Rattle.sig_tree.specs.declared.tree.TypeSig.TheVariants.{Value, Class, Var, MVar};
ghost use Rattle.sig_read.specs.inner.Found.{FindsFront};
ghost use Rattle.sig_tree.specs.Fronts.{wrap, type_token_at};
ghost use Rattle.sig_tree.specs.Parsing.{kind_at, arity_at, begins};

use crate::read_number::{read_number, read_type_token};
use sig_tree::{Arity, TypeSig, element_type as el};

/// The first byte, and those after it.
pub(crate) fn first_byte(bytes: &[u8]) -> Option<(u8, &[u8])>
    ensures { MatchOption result (bytes.now ≡ []) (λ x. bytes.now ≡ x.0 ∷ x.1.now) }
{
    match bytes {
        [head, rest @ ..] => Some((*head, rest)),
        [] => None,
    }
}

/// A VALUETYPE after its first byte.
pub(crate) fn read_value(bytes: &[u8]) -> Option<(TypeSig, &[u8])>
    ensures { FindsFront result (wrap Value (type_token_at bytes.now)) }
{
    let Some((of, rest)) = read_type_token(bytes) else {
        return None;
    };
    Some((TypeSig::Value(of), rest))
}

/// A CLASS after its first byte.
pub(crate) fn read_class(bytes: &[u8]) -> Option<(TypeSig, &[u8])>
    ensures { FindsFront result (wrap Class (type_token_at bytes.now)) }
{
    let Some((of, rest)) = read_type_token(bytes) else {
        return None;
    };
    Some((TypeSig::Class(of), rest))
}

/// A VAR after its first byte.
pub(crate) fn read_var(bytes: &[u8]) -> Option<(TypeSig, &[u8])>
    ensures { FindsFront result (wrap Var (compressed_at bytes.now)) }
{
    let Some((number, rest)) = read_number(bytes) else {
        return None;
    };
    Some((TypeSig::Var(number), rest))
}

/// An MVAR after its first byte.
pub(crate) fn read_mvar(bytes: &[u8]) -> Option<(TypeSig, &[u8])>
    ensures { FindsFront result (wrap MVar (compressed_at bytes.now)) }
{
    let Some((number, rest)) = read_number(bytes) else {
        return None;
    };
    Some((TypeSig::MVar(number), rest))
}

/// Whether VALUETYPE or CLASS stands at the front.
pub(crate) fn read_kind(bytes: &[u8]) -> Option<(bool, &[u8])>
    ensures { FindsFront result (kind_at bytes.now) }
{
    match bytes {
        [el::VALUETYPE, rest @ ..] => Some((true, rest)),
        [el::CLASS, rest @ ..] => Some((false, rest)),
        _ => None,
    }
}

/// The number of generic parameters, where the convention says that there is one.
pub(crate) fn read_arity(generic: bool, bytes: &[u8]) -> Option<(Arity, &[u8])>
    ensures { FindsFront result (arity_at generic bytes.now) }
{
    if generic {
        let Some((count, rest)) = read_number(bytes) else {
            return None;
        };
        Some((Arity::Generic(count), rest))
    } else {
        Some((Arity::Plain, bytes))
    }
}

/// The bytes after a sentinel, where one stands at the front.
pub(crate) fn after_sentinel(bytes: &[u8]) -> Option<&[u8]>
    ensures { MatchOption result (begins 0x41 bytes.now ≡ false)
        (λ rest. (begins 0x41 bytes.now ≡ true) × (rest.now ≡ drop 1 bytes.now)) }
{
    match bytes {
        [el::SENTINEL, rest @ ..] => Some(rest),
        _ => None,
    }
}
