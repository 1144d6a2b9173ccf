ghost use Rattle.std.specs.Prelude.{◌≡◌, IfOk};
ghost use Rattle.pe_write.specs.Headers.{cli_header_bytes, dos_header_bytes, file_header_bytes, optional_header_bytes, section_header_bytes};

use crate::field::Field::{Address, Bytes as These, Four, Two, Zeros};
use crate::field::join_fields;
use crate::format::{cli, coff, dos, optional, section};
use crate::kind::ImageKind;
use cil_base::{Bytes, NoMemory};
use pe_image::Facts;
use std::alloc::Global;

/// The numbers of the CLI header that are not the same in every image (ECMA-335 II.25.3.3).
#[derive(Clone, Copy)]
pub(crate) struct CliNumbers {
    pub runtime_major: u16,
    pub runtime_minor: u16,
    pub metadata_rva: u32,
    pub metadata_size: u32,
    pub flags: u32,
    pub entry: u32,
    pub resources_rva: u32,
    pub resources_size: u32,
}

/// The MS-DOS header.
#[tactic(auto, unfolding(crate::specs::Headers::dos_header_bytes))]
pub(crate) fn dos_header(alloc: Global) -> Result<Bytes, NoMemory>
    ensures { IfOk result (λ bytes. bytes ≡ dos_header_bytes) }
{
    join_fields(
        alloc,
        &[Two(dos::MAGIC), Zeros(dos::UNUSED), Four(dos::LFANEW)],
    )
}

/// The PE signature and the PE file header.
#[tactic(auto, unfolding(crate::specs::Headers::file_header_bytes))]
pub(crate) fn file_header(alloc: Global, kind: &ImageKind, facts: &Facts) -> Result<Bytes, NoMemory>
    ensures { IfOk result (λ bytes. bytes ≡ file_header_bytes kind.now facts.now) }
{
    join_fields(
        alloc,
        &[
            Four(coff::SIGNATURE),
            Two(facts.machine),
            Two(coff::NUMBER_OF_SECTIONS),
            Four(facts.time),
            Zeros(coff::SYMBOLS),
            Two(kind.optional_size),
            Two(facts.characteristics),
        ],
    )
}

/// The optional header, with the bytes of code and the image's size in memory.
#[tactic(auto, unfolding(crate::specs::Headers::optional_header_bytes))]
pub(crate) fn optional_header(
    alloc: Global,
    kind: &ImageKind,
    facts: &Facts,
    code: u32,
    image: u32,
) -> Result<Bytes, NoMemory>
    ensures { IfOk result (λ bytes. bytes ≡ optional_header_bytes kind.now facts.now code image) }
{
    join_fields(
        alloc,
        &[
            Two(kind.magic),
            Two(optional::LINKER),
            Four(code),
            Zeros(optional::NO_DATA),
            Four(section::RVA),
            Zeros(kind.data_base),
            Address(kind.plus, facts.base),
            Four(optional::SECTION_ALIGNMENT),
            Four(optional::FILE_ALIGNMENT),
            Four(optional::SYSTEM),
            Zeros(optional::UNUSED),
            Four(optional::SYSTEM),
            Zeros(optional::UNUSED),
            Four(image),
            Four(optional::HEADER_SIZE),
            Zeros(optional::UNUSED),
            Two(facts.subsystem),
            Two(facts.dll),
            Address(kind.plus, optional::RESERVE),
            Address(kind.plus, optional::COMMIT),
            Address(kind.plus, optional::RESERVE),
            Address(kind.plus, optional::COMMIT),
            Zeros(optional::UNUSED),
            Four(optional::NUMBER_OF_DIRECTORIES),
            Zeros(optional::BEFORE_CLI),
            Four(section::RVA),
            Four(cli::SIZE),
            Zeros(optional::BEHIND_CLI),
        ],
    )
}

/// The section header of `.text`, with the bytes that are used and those in the file.
#[tactic(auto, unfolding(crate::specs::Headers::section_header_bytes))]
pub(crate) fn section_header(alloc: Global, used: u32, raw: u32) -> Result<Bytes, NoMemory>
    ensures { IfOk result (λ bytes. bytes ≡ section_header_bytes used raw) }
{
    join_fields(
        alloc,
        &[
            These(&[0x2e, 0x74, 0x65, 0x78, 0x74, 0, 0, 0]),
            Four(used),
            Four(section::RVA),
            Four(raw),
            Four(section::PLACE),
            Zeros(section::UNUSED),
            Four(section::CHARACTERISTICS),
        ],
    )
}

/// The CLI header.
#[tactic(auto, unfolding(crate::specs::Headers::cli_header_bytes))]
pub(crate) fn cli_header(alloc: Global, numbers: &CliNumbers) -> Result<Bytes, NoMemory>
    ensures { IfOk result (λ bytes. bytes ≡ cli_header_bytes numbers.now) }
{
    join_fields(
        alloc,
        &[
            Four(cli::SIZE),
            Two(numbers.runtime_major),
            Two(numbers.runtime_minor),
            Four(numbers.metadata_rva),
            Four(numbers.metadata_size),
            Four(numbers.flags),
            Four(numbers.entry),
            Four(numbers.resources_rva),
            Four(numbers.resources_size),
            Zeros(cli::UNUSED),
        ],
    )
}
