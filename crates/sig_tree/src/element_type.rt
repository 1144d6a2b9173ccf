//! Element types and the other marks of a signature (ECMA-335 II.23.1.16, II.23.2).

pub const VOID: u8 = 0x01;

pub const BOOLEAN: u8 = 0x02;

pub const CHAR: u8 = 0x03;

pub const I1: u8 = 0x04;

pub const U1: u8 = 0x05;

pub const I2: u8 = 0x06;

pub const U2: u8 = 0x07;

pub const I4: u8 = 0x08;

pub const U4: u8 = 0x09;

pub const I8: u8 = 0x0a;

pub const U8: u8 = 0x0b;

pub const R4: u8 = 0x0c;

pub const R8: u8 = 0x0d;

pub const STRING: u8 = 0x0e;

pub const PTR: u8 = 0x0f;

pub const BYREF: u8 = 0x10;

pub const VALUETYPE: u8 = 0x11;

pub const CLASS: u8 = 0x12;

pub const VAR: u8 = 0x13;

pub const ARRAY: u8 = 0x14;

pub const GENERICINST: u8 = 0x15;

pub const TYPEDBYREF: u8 = 0x16;

pub const I: u8 = 0x18;

pub const U: u8 = 0x19;

pub const FNPTR: u8 = 0x1b;

pub const OBJECT: u8 = 0x1c;

pub const SZARRAY: u8 = 0x1d;

pub const MVAR: u8 = 0x1e;

pub const CMOD_REQD: u8 = 0x1f;

pub const CMOD_OPT: u8 = 0x20;

pub const SENTINEL: u8 = 0x41;

pub const PINNED: u8 = 0x45;

/// The first byte of a field's signature.
pub const FIELD: u8 = 0x06;
/// The first byte of a signature of local variables.
pub const LOCAL_SIG: u8 = 0x07;
/// The first byte of a property's signature, without and with HASTHIS.
pub const PROPERTY: u8 = 0x08;

pub const PROPERTY_OF_INSTANCE: u8 = 0x28;
/// The first byte of the arguments of a generic method.
pub const METHOD_ARGUMENTS: u8 = 0x0a;

/// The flags of a method's first byte, above its calling convention.
pub const GENERIC: u8 = 0x10;

pub const HASTHIS: u8 = 0x20;

pub const EXPLICITTHIS: u8 = 0x40;

/// The tables of a type token (II.22).
pub const TYPE_REF: u8 = 0x01;

pub const TYPE_DEF: u8 = 0x02;

pub const TYPE_SPEC: u8 = 0x1b;
