ghost use Rattle.std.specs.Prelude.{◌≡◌, ◌+◌, ◌≤◌, length, IfOk};
ghost use Rattle.pe_image.specs.Headers.{headers_of};
ghost use Rattle.pe_image.specs.CliHeader.{cli_header, has_native, resources_rva};
ghost use Rattle.pe_image.specs.Metadata.{metadata, version_length};
ghost use Rattle.pe_image.specs.Facts.{image_base, image_facts};

use crate::headers::Headers;
use crate::metadata::version;
use crate::number::{u16_at, u32_at, u64_at};
use crate::places::{cli, coff, optional};
use cil_base::{Bytes, NoMemory, Token};
use std::alloc::Global;

/// What the headers say of an image as a whole (ECMA-335 II.25.2.2, II.25.2.3, II.25.3.3, II.24.2.1).
#[derive(Debug, PartialEq, Eq, Drop)]
pub struct Facts {
    /// Whether addresses have 64 bits (PE32+).
    pub plus: bool,
    /// Machine of the file header.
    pub machine: u16,
    /// TimeDateStamp of the file header, seconds since 1970-01-01.
    pub time: u32,
    /// Characteristics of the file header.
    pub characteristics: u16,
    /// The address that the image is made for.
    pub base: u64,
    /// Subsystem of the optional header.
    pub subsystem: u16,
    /// DLL characteristics of the optional header.
    pub dll: u16,
    /// MajorRuntimeVersion of the CLI header.
    pub runtime_major: u16,
    /// MinorRuntimeVersion of the CLI header.
    pub runtime_minor: u16,
    /// Flags of the CLI header.
    pub flags: u32,
    /// Whether CodeManagerTable, VTableFixups, ExportAddressTableJumps or ManagedNativeHeader names an RVA.
    pub native: bool,
    /// EntryPointToken of the CLI header.
    pub entry: Token,
    /// The version text of the metadata, up to its first zero byte.
    pub version: Bytes,
}

impl Facts {
    /// Equal facts of their own.
    pub fn copy(&self) -> Result<Facts, NoMemory>
        ensures { IfOk result (λ facts. facts ≡ self.now) }
    {
        let version = self.version.copy()?;
        Ok(Facts {
            plus: self.plus,
            machine: self.machine,
            time: self.time,
            characteristics: self.characteristics,
            base: self.base,
            subsystem: self.subsystem,
            dll: self.dll,
            runtime_major: self.runtime_major,
            runtime_minor: self.runtime_minor,
            flags: self.flags,
            native: self.native,
            entry: self.entry,
            version,
        })
    }
}

/// Whether a CLI header names native code or data.
#[tactic(auto, unfolding(crate::specs::CliHeader::has_native))]
fn is_native(header: &[u8]) -> bool
    requires { 72 ≤ length header.now }
    ensures { result ≡ has_native header.now }
{
    u32_at(header, cli::CODE_MANAGER_TABLE) != 0
        || u32_at(header, cli::VTABLE_FIXUPS) != 0
        || u32_at(header, cli::EXPORT_ADDRESS_TABLE_JUMPS) != 0
        || u32_at(header, cli::MANAGED_NATIVE_HEADER) != 0
}

/// The RVA of the resources, by the bytes of the CLI header.
#[tactic(auto, unfolding(crate::specs::CliHeader::resources_rva))]
pub(crate) fn read_resources(file: &[u8], header: &[u8]) -> u32
    requires cli { header.now ≡ cli_header file.now }
    requires room { 72 ≤ length header.now }
    ensures { result ≡ resources_rva file.now }
{
    u32_at(header, cli::RESOURCES)
}

/// The address that the image is made for, in the optional header at a place.
fn read_base(file: &[u8], place: usize, plus: bool) -> u64
    requires { place + 96 ≤ length file.now }
    ensures { result ≡ image_base plus file.now place }
{
    if plus {
        u64_at(file, place + optional::IMAGE_BASE_PLUS)
    } else {
        u64::from(u32_at(file, place + optional::IMAGE_BASE))
    }
}

/// The facts of an image, by its headers, the bytes of the CLI header and of the metadata.
#[tactic(auto, unfolding(crate::specs::Facts::image_facts))]
pub(crate) fn read_facts(
    alloc: Global,
    file: &[u8],
    headers: Headers,
    header: &[u8],
    bytes: &[u8],
) -> Result<Facts, NoMemory>
    requires headers { headers ≡ headers_of file.now }
    requires optional { (headers.coff + 20 ≡ headers.optional) × (headers.optional + 96 ≤ length file.now) }
    requires cli { (header.now ≡ cli_header file.now) × (72 ≤ length header.now) }
    requires bytes { (bytes.now ≡ metadata file.now) × (20 + version_length bytes.now ≤ length bytes.now) }
    ensures { IfOk result (λ facts. facts ≡ image_facts file.now) }
{
    let coff = headers.coff;
    let place = headers.optional;
    let version = version(alloc, bytes)?;
    Ok(Facts {
        plus: headers.plus,
        machine: u16_at(file, coff + coff::MACHINE),
        time: u32_at(file, coff + coff::TIME_DATE_STAMP),
        characteristics: u16_at(file, coff + coff::CHARACTERISTICS),
        base: read_base(file, place, headers.plus),
        subsystem: u16_at(file, place + optional::SUBSYSTEM),
        dll: u16_at(file, place + optional::DLL_CHARACTERISTICS),
        runtime_major: u16_at(header, cli::MAJOR_RUNTIME_VERSION),
        runtime_minor: u16_at(header, cli::MINOR_RUNTIME_VERSION),
        flags: u32_at(header, cli::FLAGS),
        native: is_native(header),
        entry: Token::from_number(u32_at(header, cli::ENTRY_POINT_TOKEN)),
        version,
    })
}
