//! The parameters of an attribute's constructor, and the types of its arguments (ECMA-335 II.23.2.10, II.23.3).

ghost use Rattle.std.specs.Prelude.{◌≡◌, ◌∷◌, ◌++◌, [], map, IfOk, OnOk};
ghost use Rattle.sig_tree.specs.declared.tree.TypeSig.TheViews.{out-TypeSig};
ghost use Rattle.resolver.specs.Parameters.{array_type, asked_of, class_type, is_value_named, kind_asked, kind_level};
ghost use Rattle.resolver.specs.Parameters.{kind_type, names_behind, parameter_of, prim_kind, types_of, value_token};

use attr_blob::ArgType;
use cil_base::{Boxed, Bytes, List, NoMemory, Token};
use sig_tree::{TypeSig, element_type};
use std::alloc::Global;

/// What a parameter is, or the elements of an array are.
#[derive(Clone, Copy)]
pub(crate) enum ParameterKind {
    /// A number, by its element type.
    Number(u8),
    Text,
    /// An object.
    Boxed,
    Class(Token),
    Value(Token),
    /// None that an attribute may have.
    Other,
}

/// A parameter.
#[derive(Clone, Copy)]
pub(crate) struct Parameter {
    pub array: bool,
    pub kind: ParameterKind,
}

/// A type whose name is asked.
#[derive(Clone, Copy)]
pub(crate) struct Asked {
    pub token: Token,
    /// Whether it is a value type.
    pub value: bool,
}

/// A type of one byte.
fn prim_kind(code: u8) -> ParameterKind
    ensures { result ≡ prim_kind code }
{
    match code {
        0x02..=0x0d => ParameterKind::Number(code),
        element_type::STRING => ParameterKind::Text,
        element_type::OBJECT => ParameterKind::Boxed,
        _ => ParameterKind::Other,
    }
}

fn kind_of(ty: &TypeSig) -> ParameterKind
    ensures { result ≡ kind_level (out-TypeSig ty.now) }
{
    match ty {
        TypeSig::Prim(code) => prim_kind(*code),
        TypeSig::Class(token) => ParameterKind::Class(*token),
        TypeSig::Value(token) => ParameterKind::Value(*token),
        _ => ParameterKind::Other,
    }
}

fn parameter_of(ty: &TypeSig) -> Parameter
    ensures { result ≡ parameter_of ty.now }
{
    match ty {
        TypeSig::SzArray(elem) => Parameter {
            array: true,
            kind: kind_of(elem.get()),
        },
        _ => Parameter {
            array: false,
            kind: kind_of(ty),
        },
    }
}

/// Adds a parameter at the end.
fn add_parameter(
    params: &mut List<Parameter>,
    array: bool,
    kind: ParameterKind,
) -> Result<(), NoMemory>
    ensures { OnOk result (params.new ≡ params.old ++ record { array = array; kind = kind } ∷ []) }
{
    params.push(Parameter { array, kind })
}

/// The parameters of these types.
pub(crate) fn parameters_of(alloc: Global, types: &[TypeSig]) -> Result<List<Parameter>, NoMemory>
    ensures { IfOk result (λ params. params ≡ map parameter_of types.now) }
{
    let mut params = List::new(alloc);
    for ty in types {
        let parameter = parameter_of(ty);
        add_parameter(&mut params, parameter.array, parameter.kind)?;
    }
    Ok(params)
}

fn kind_asked(kind: ParameterKind) -> Option<Asked>
    ensures { result ≡ kind_asked kind }
{
    match kind {
        ParameterKind::Class(token) => Some(Asked {
            token,
            value: false,
        }),
        ParameterKind::Value(token) => Some(Asked { token, value: true }),
        _ => None,
    }
}

/// The classes and value types among the parameters.
pub(crate) fn asked_of(alloc: Global, params: &[Parameter]) -> Result<List<Asked>, NoMemory>
    ensures { IfOk result (λ asked. asked ≡ asked_of params.now) }
{
    let mut all = List::new(alloc);
    for param in params {
        if let Some(asked) = kind_asked(param.kind) {
            all.push(asked)?;
        }
    }
    Ok(all)
}

/// A class is System.Type.
fn class_type(name: &[u8]) -> Option<ArgType>
    ensures { result ≡ class_type name.now }
{
    if name == b"System.Type".as_slice() {
        Some(ArgType::SystemType)
    } else {
        None
    }
}

/// The type of an argument, by the first of the names where it is a class or a value type.
fn kind_type(kind: ParameterKind, names: &[Bytes]) -> Result<Option<ArgType>, NoMemory>
    ensures { IfOk result (λ ty. ty ≡ kind_type kind names.now) }
{
    match kind {
        ParameterKind::Number(code) => Ok(Some(ArgType::Prim(code))),
        ParameterKind::Text => Ok(Some(ArgType::Text)),
        ParameterKind::Boxed => Ok(Some(ArgType::Boxed)),
        ParameterKind::Class(_) => match names {
            [name, ..] => Ok(class_type(name.as_slice())),
            [] => Ok(None),
        },
        ParameterKind::Value(_) => match names {
            [name, ..] => Ok(Some(ArgType::Enum(name.copy()?))),
            [] => Ok(None),
        },
        ParameterKind::Other => Ok(None),
    }
}

/// The names that are left behind a parameter.
fn names_behind(kind: ParameterKind, names: &[Bytes]) -> &[Bytes]
    ensures { result.now ≡ names_behind kind names.now }
{
    match kind {
        ParameterKind::Class(_) | ParameterKind::Value(_) => match names {
            [_, rest @ ..] => rest,
            [] => names,
        },
        _ => names,
    }
}

fn array_type(alloc: Global, array: bool, ty: ArgType) -> Result<ArgType, NoMemory>
    ensures { IfOk result (λ made. made ≡ array_type array ty) }
{
    if array {
        Ok(ArgType::Array(Boxed::new(alloc, ty)?))
    } else {
        Ok(ty)
    }
}

/// The types of the arguments, by the names of the classes and value types. None where a parameter may not be one of an
/// attribute.
pub(crate) fn types_of(
    alloc: Global,
    params: &[Parameter],
    names: &[Bytes],
) -> Result<Option<List<ArgType>>, NoMemory>
    ensures { IfOk result (λ types. types ≡ types_of params.now names.now) }
{
    let mut types = List::new(alloc);
    let mut rest = names;
    for param in params {
        let Some(ty) = kind_type(param.kind, rest)? else {
            return Ok(None);
        };
        types.push(array_type(alloc, param.array, ty)?)?;
        rest = names_behind(param.kind, rest);
    }
    Ok(Some(types))
}

/// Whether a type is a value type of the name.
fn is_value_named(one: Asked, name: &Bytes, wanted: &[u8]) -> bool
    ensures { result ≡ is_value_named wanted.now (one, name.now) }
{
    one.value && name.as_slice() == wanted
}

/// The first value type among the parameters that has the name.
pub(crate) fn value_token(asked: &[Asked], names: &[Bytes], wanted: &[u8]) -> Option<Token>
    ensures { result ≡ value_token asked.now names.now wanted.now }
{
    for (place, one) in asked.iter().enumerate() {
        if place >= names.len() {
            return None;
        }
        if is_value_named(*one, &names[place], wanted) {
            return Some(one.token);
        }
    }
    None
}
