use cil_base::{Boxed, Bytes, List};

/// The type of an argument (ECMA-335 II.23.3).
#[derive(Drop)]
pub enum ArgType {
    /// A number, by its element type: 02 to 0D (II.23.1.16).
    Prim(u8),
    Text,
    /// System.Type, whose value is a type's name.
    SystemType,
    /// A value that comes with its type.
    Boxed,
    /// An enum, by its full name.
    Enum(Bytes),
    /// A one-dimensional array, by the type of its elements, which is itself no array in a blob.
    Array(Boxed<ArgType>),
}

/// An argument (ECMA-335 II.23.3).
#[derive(Drop)]
pub enum Arg {
    /// A number of that element type, as its bits.
    Num { elem: u8, bits: u64 },
    Text(Bytes),
    NullText,
    TypeName(Bytes),
    NullType,
    Boxed(ArgType, Boxed<Arg>),
    /// A value of the enum of that name, which is a number of that element type.
    Enum { name: Bytes, elem: u8, bits: u64 },
    /// The type of the elements, and the elements.
    Array(ArgType, List<Arg>),
    NullArray(ArgType),
}

/// A field or a property that is set by its name (ECMA-335 II.23.3).
#[derive(Drop)]
pub struct NamedArg {
    pub property: bool,
    pub ty: ArgType,
    pub name: Bytes,
    pub value: Arg,
}

/// The value of a custom attribute: the arguments of its constructor, and those that are named.
#[derive(Drop)]
pub struct AttrValue {
    pub fixed: List<Arg>,
    pub named: List<NamedArg>,
}

/// The element type of an enum's numbers, by the enum's name.
#[derive(Drop)]
pub struct EnumWidth {
    pub name: Bytes,
    pub elem: u8,
}

/// What a blob says.
#[derive(Drop)]
pub enum AttrRead {
    Value(AttrValue),
    /// The name of an enum whose width is needed before the blob can be read on.
    Unknown(Bytes),
    Bad,
}
