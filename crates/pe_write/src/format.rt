//! The numbers that are the same in every image that is written, each once.

/// The MS-DOS header (ECMA-335 II.25.2.1).
pub(crate) mod dos {
    /// `MZ`.
    pub(crate) const MAGIC: u16 = 0x5a4d;
    /// The bytes between the magic and the place of the PE signature, which are zero here.
    pub(crate) const UNUSED: u32 = 58;
    /// The place of the PE signature: right behind this header.
    pub(crate) const LFANEW: u32 = 0x40;
}

/// The PE file header (II.25.2.2).
pub(crate) mod coff {
    /// `PE` and two zero bytes, before the header.
    pub(crate) const SIGNATURE: u32 = 0x4550;

    pub(crate) const NUMBER_OF_SECTIONS: u16 = 1;
    /// The bytes of PointerToSymbolTable and NumberOfSymbols.
    pub(crate) const SYMBOLS: u32 = 8;
}

/// The optional header (II.25.2.3).
pub(crate) mod optional {
    pub(crate) const MAGIC_PE32: u16 = 0x10b;

    pub(crate) const MAGIC_PE32_PLUS: u16 = 0x20b;

    pub(crate) const SIZE_PE32: u16 = 224;

    pub(crate) const SIZE_PE32_PLUS: u16 = 240;
    /// Version 8.0 of the linker.
    pub(crate) const LINKER: u16 = 8;
    /// The bytes of the two sizes of data and of the entry point.
    pub(crate) const NO_DATA: u32 = 12;

    pub(crate) const SECTION_ALIGNMENT: u32 = 0x2000;

    pub(crate) const FILE_ALIGNMENT: u32 = 0x200;
    /// Version 4.0 of the operating system and of the subsystem.
    pub(crate) const SYSTEM: u32 = 4;
    /// The bytes of the user version, of a reserved number, of the checksum and of the loader flags, each.
    pub(crate) const UNUSED: u32 = 4;

    pub(crate) const HEADER_SIZE: u32 = 0x200;

    pub(crate) const RESERVE: u64 = 0x10_0000;

    pub(crate) const COMMIT: u64 = 0x1000;

    pub(crate) const NUMBER_OF_DIRECTORIES: u32 = 16;
    /// The bytes of the directories before that of the CLI header, number 14.
    pub(crate) const BEFORE_CLI: u32 = 112;
    /// The bytes of the one behind it.
    pub(crate) const BEHIND_CLI: u32 = 8;
}

/// The section (II.25.3).
pub(crate) mod section {
    /// The RVA of its first byte.
    pub(crate) const RVA: u32 = 0x2000;
    /// The place in the file of its first byte.
    pub(crate) const PLACE: u32 = 0x200;
    /// The bytes of the fields on relocations and line numbers.
    pub(crate) const UNUSED: u32 = 12;
    /// Code that may be executed and read.
    pub(crate) const CHARACTERISTICS: u32 = 0x6000_0020;
}

/// The CLI header (II.25.3.3).
pub(crate) mod cli {
    pub(crate) const SIZE: u32 = 72;
    /// The flag STRONGNAMESIGNED.
    pub(crate) const STRONG_NAME_SIGNED: u32 = 8;
    /// The bytes of the five directories from StrongNameSignature on.
    pub(crate) const UNUSED: u32 = 40;
}

/// The metadata root (II.24.2.1).
pub(crate) mod root {
    /// `BSJB`.
    pub(crate) const SIGNATURE: u32 = 0x424a_5342;

    pub(crate) const MAJOR_VERSION: u16 = 1;

    pub(crate) const MINOR_VERSION: u16 = 1;

    pub(crate) const RESERVED: u32 = 4;

    pub(crate) const FLAGS: u16 = 0;

    pub(crate) const STREAMS: u16 = 5;
    /// The bytes of the root beside the version text, and of the five stream headers.
    pub(crate) const SIZE: u32 = 96;
}
