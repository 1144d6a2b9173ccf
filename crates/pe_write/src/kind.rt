ghost use Rattle.std.specs.Prelude.{◌≡◌};
ghost use Rattle.pe_write.specs.Headers.{image_kind};

use crate::format::optional;

/// The optional header of PE32, or that of PE32+. Both have the same fields, but for BaseOfData, which PE32 alone has; of six
/// numbers PE32+ has eight bytes for four (ECMA-335 II.25.2.3).
#[derive(Clone, Copy)]
pub(crate) struct ImageKind {
    /// Whether it is PE32+.
    pub plus: bool,
    /// Magic.
    pub magic: u16,
    /// The bytes of the optional header.
    pub optional_size: u16,
    /// The bytes of BaseOfData.
    pub data_base: u32,
}

/// The kind of an image.
pub(crate) fn kind_of(plus: bool) -> ImageKind
    ensures { result ≡ image_kind plus }
{
    if plus {
        ImageKind {
            plus: true,
            magic: optional::MAGIC_PE32_PLUS,
            optional_size: optional::SIZE_PE32_PLUS,
            data_base: 0,
        }
    } else {
        ImageKind {
            plus: false,
            magic: optional::MAGIC_PE32,
            optional_size: optional::SIZE_PE32,
            data_base: 4,
        }
    }
}
