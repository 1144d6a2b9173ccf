//! The magics, places and sizes of the headers, each once. A place counts from the start of its header.

/// The greatest length of a file that is read: 2^26 bytes.
pub(crate) const MAX_LENGTH: usize = 0x0400_0000;

/// The MS-DOS header (ECMA-335 II.25.2.1).
pub(crate) mod dos {
    /// `MZ`.
    pub(crate) const MAGIC: u16 = 0x5a4d;
    /// The place of the PE signature.
    pub(crate) const LFANEW: usize = 0x3c;
}

/// `PE` and two zero bytes, before the PE file header.
pub(crate) const PE_SIGNATURE: u32 = 0x0000_4550;

/// The bytes of the PE signature.
pub(crate) const PE_SIGNATURE_SIZE: usize = 4;

/// The PE file header (ECMA-335 II.25.2.2).
pub(crate) mod coff {
    pub(crate) const MACHINE: usize = 0;

    pub(crate) const NUMBER_OF_SECTIONS: usize = 2;

    pub(crate) const TIME_DATE_STAMP: usize = 4;

    pub(crate) const SIZE_OF_OPTIONAL_HEADER: usize = 16;

    pub(crate) const CHARACTERISTICS: usize = 18;

    pub(crate) const SIZE: usize = 20;
}

/// The optional header of PE32 (ECMA-335 II.25.2.3). In PE32+, of which the standard does not speak, the image base has eight
/// bytes and stands where PE32 has BaseOfData; the four sizes of stack and heap have eight bytes each, so the directories and
/// their number stand 16 bytes later.
pub(crate) mod optional {
    pub(crate) const MAGIC_PE32: u16 = 0x10b;

    pub(crate) const MAGIC_PE32_PLUS: u16 = 0x20b;

    pub(crate) const IMAGE_BASE: usize = 28;

    pub(crate) const IMAGE_BASE_PLUS: usize = 24;

    pub(crate) const SUBSYSTEM: usize = 68;

    pub(crate) const DLL_CHARACTERISTICS: usize = 70;

    pub(crate) const NUMBER_OF_DIRECTORIES: usize = 92;

    pub(crate) const DIRECTORIES: usize = 96;
    /// How much later the directories and their number stand in PE32+.
    pub(crate) const WIDER: usize = 16;
}

/// The data directories, an RVA and a size each (ECMA-335 II.25.2.3.3).
pub(crate) mod directory {
    pub(crate) const SIZE: usize = 8;
    /// The number of the directory of the CLI header, from 0.
    pub(crate) const CLI_HEADER: usize = 14;
}

/// A section header (ECMA-335 II.25.3).
pub(crate) mod section_header {
    pub(crate) const VIRTUAL_ADDRESS: usize = 12;

    pub(crate) const SIZE_OF_RAW_DATA: usize = 16;

    pub(crate) const POINTER_TO_RAW_DATA: usize = 20;

    pub(crate) const SIZE: usize = 40;
}

/// The CLI header (ECMA-335 II.25.3.3).
pub(crate) mod cli {
    pub(crate) const MAJOR_RUNTIME_VERSION: usize = 4;

    pub(crate) const MINOR_RUNTIME_VERSION: usize = 6;

    pub(crate) const META_DATA_RVA: usize = 8;

    pub(crate) const META_DATA_SIZE: usize = 12;

    pub(crate) const FLAGS: usize = 16;

    pub(crate) const ENTRY_POINT_TOKEN: usize = 20;

    pub(crate) const RESOURCES: usize = 24;

    pub(crate) const CODE_MANAGER_TABLE: usize = 40;

    pub(crate) const VTABLE_FIXUPS: usize = 48;

    pub(crate) const EXPORT_ADDRESS_TABLE_JUMPS: usize = 56;

    pub(crate) const MANAGED_NATIVE_HEADER: usize = 64;

    pub(crate) const SIZE: usize = 72;
}

/// The metadata root (ECMA-335 II.24.2.1).
pub(crate) mod root {
    /// `BSJB`.
    pub(crate) const SIGNATURE: u32 = 0x424a_5342;
    /// The length of the version text.
    pub(crate) const LENGTH: usize = 12;

    pub(crate) const VERSION: usize = 16;
    /// The bytes of the root without the version text.
    pub(crate) const SIZE: usize = 20;
    /// The number of streams, after the version text and the flags.
    pub(crate) const STREAMS: usize = 18;
}

/// A stream header (ECMA-335 II.24.2.2).
pub(crate) mod stream_header {
    pub(crate) const OFFSET: usize = 0;

    pub(crate) const SIZE: usize = 4;

    pub(crate) const NAME: usize = 8;
    /// The longest name, with its zero byte.
    pub(crate) const NAME_WINDOW: usize = 32;
}
