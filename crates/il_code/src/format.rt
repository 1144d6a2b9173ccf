//! The numbers of codes, method headers, sections and clauses, by the standard's names (ECMA-335 III.1.2 and II.25.4).

/// The first byte of the codes of two bytes.
pub const PREFIX: u8 = 0xfe;
/// The first of those codes.
pub const TWO_BYTES: u16 = 0xfe00;

/// The two low bits of a header's first byte: a header of one byte.
pub const TINY_FORMAT: u8 = 0x2;
/// The same bits: a header of twelve bytes.
pub const FAT_FORMAT: u8 = 0x3;
/// A flag of a fat header: sections follow the code.
pub const MORE_SECTS: u16 = 0x8;
/// A flag of a fat header: locals begin as zeros.
pub const INIT_LOCALS: u16 = 0x10;
/// The upper four bits of a fat header's flags: its own size in words of four bytes.
pub const FAT_WORDS: u16 = 3;
/// What those bits count.
pub const WORDS: u16 = 0x1000;

/// Where the flags of a fat header stand, in bytes from its first.
pub const FLAGS: usize = 0;
/// Where its max stack stands.
pub const MAX_STACK: usize = 2;
/// Where the code's size stands.
pub const CODE_SIZE: usize = 4;
/// Where the token of its locals stands.
pub const LOCALS: usize = 8;
/// The bytes of a fat header.
pub const FAT_LEN: u32 = 12;

/// The max stack of a tiny header.
pub const TINY_STACK: u16 = 8;
/// The least size of code that no tiny header has.
pub const TINY_SIZE: u32 = 64;

/// The low six bits of a section's kind: clauses of handlers.
pub const SECT_EH_TABLE: u32 = 0x1;
/// A flag of a section's kind: sizes of three bytes, and fat clauses.
pub const SECT_FAT_FORMAT: u32 = 0x40;
/// A flag of a section's kind: another section follows.
pub const SECT_MORE_SECTS: u32 = 0x80;
/// The bytes of a section's header.
pub const SECT_LEN: usize = 4;

/// The bytes of a clause in a small section.
pub const SMALL_CLAUSE: usize = 12;
/// The bytes of a clause in a fat section.
pub const FAT_CLAUSE: usize = 24;
/// The most clauses of a section that is written small.
pub const SMALL_COUNT: usize = 20;

/// The flags of a clause that handles a type.
pub const CLAUSE_EXCEPTION: u32 = 0x0;
/// Of one with a filter.
pub const CLAUSE_FILTER: u32 = 0x1;
/// Of one that runs at each end of the range.
pub const CLAUSE_FINALLY: u32 = 0x2;
/// Of one that runs where an exception ends the range.
pub const CLAUSE_FAULT: u32 = 0x4;
