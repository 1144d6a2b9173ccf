ghost use Rattle.std.specs.Prelude.{◌≡◌};
ghost use Rattle.sig_tree.specs.Names.{prim_name, kind_name};

use sig_tree::element_type as el;

/// The name of an element type of one byte.
pub(crate) fn prim_name(code: u8) -> &'static [u8]
    ensures { result.now ≡ prim_name code }
{
    match code {
        el::VOID => b"void",
        el::BOOLEAN => b"bool",
        el::CHAR => b"char",
        el::I1 => b"i1",
        el::U1 => b"u1",
        el::I2 => b"i2",
        el::U2 => b"u2",
        el::I4 => b"i4",
        el::U4 => b"u4",
        el::I8 => b"i8",
        el::U8 => b"u8",
        el::R4 => b"r4",
        el::R8 => b"r8",
        el::STRING => b"string",
        el::TYPEDBYREF => b"typedref",
        el::I => b"iptr",
        el::U => b"uptr",
        el::OBJECT => b"object",
        _ => b"",
    }
}

/// The name of a calling convention, with a space after it.
pub(crate) fn kind_name(kind: u8) -> &'static [u8]
    ensures { result.now ≡ kind_name kind }
{
    match kind {
        1 => b"c ",
        2 => b"stdcall ",
        3 => b"thiscall ",
        4 => b"fastcall ",
        5 => b"vararg ",
        9 => b"kind9 ",
        _ => b"",
    }
}
