ghost use Rattle.std.specs.Prelude.{◌≡◌, ◌≤◌, ◌^◌, [], ◌++◌, List, length, IfOk, OnOk};
ghost use Rattle.laid_parts.specs.LaidParts.{Part, laid};
ghost use Rattle.pe_write.specs.Image.{WritesImage, cli_numbers, header_parts, image_length, image_size, metadata_offset, raw_size, section_parts, used_size};

use crate::contents::Contents;
use crate::fail::{MAX_LENGTH, PeWriteFail};
use crate::format::{cli, optional, section};
use crate::headers::{
    CliNumbers, cli_header, dos_header, file_header, optional_header, section_header,
};
use crate::kind::kind_of;
use cil_base::{Bytes, NoMemory};
use laid_parts::Parts;
use pe_image::Facts;
use std::alloc::Global;

/// How many bytes an image has whose section has `body` bytes between the CLI header and the metadata, and `metadata` bytes of
/// that. `NoMemory` where they would pass 2^64 - 1.
pub fn image_length(body: u64, metadata: u64) -> Result<u64, NoMemory>
    ensures { IfOk result (λ length. length ≡ image_length body metadata) }
{
    let used = (u128::from(cli::SIZE) + u128::from(body)).next_multiple_of(4)
        + u128::from(metadata);
    let length = u128::from(section::PLACE) + used.next_multiple_of(512);
    u64::try_from(length).map_err(|_| NoMemory)
}

/// The lengths that the headers say of contents.
#[derive(Clone, Copy)]
struct Lengths {
    /// Where the metadata begins, from the section's start.
    metadata: u32,
    /// The bytes of the section that are used.
    used: u32,
    /// Those that it has in the file.
    raw: u32,
    /// The image's size in memory.
    image: u32,
}

/// The lengths.
#[tactic(auto, unfolding(crate::specs::Image::metadata_offset, crate::specs::Image::used_size, crate::specs::Image::raw_size, crate::specs::Image::image_size))]
fn lengths_of(contents: &Contents) -> Lengths
    requires { image_length (length contents.now.body) (length contents.now.metadata) ≤ 2 ^ 26 }
    ensures metadata { result.metadata ≡ metadata_offset contents.now }
    ensures used { result.used ≡ used_size contents.now }
    ensures raw { result.raw ≡ raw_size contents.now }
    ensures image { result.image ≡ image_size contents.now }
    ensures low { result.metadata ≤ 2 ^ 26 }
{
    let metadata = (cli::SIZE + contents.body.len() as u32).next_multiple_of(4);
    let used = metadata + contents.metadata.len() as u32;
    Lengths {
        metadata,
        used,
        raw: used.next_multiple_of(512),
        image: (section::RVA + used).next_multiple_of(8192),
    }
}

/// The numbers of the CLI header, where the metadata begins at `offset`, from the section's start.
fn cli_numbers(facts: &Facts, contents: &Contents, offset: u32) -> CliNumbers
    requires offset { (offset ≡ metadata_offset contents.now) × (offset ≤ 2 ^ 26) }
    requires small { length contents.now.metadata ≤ 2 ^ 26 }
    ensures { result ≡ cli_numbers facts.now contents.now }
{
    CliNumbers {
        runtime_major: facts.runtime_major,
        runtime_minor: facts.runtime_minor,
        metadata_rva: section::RVA + offset,
        metadata_size: contents.metadata.len() as u32,
        flags: facts.flags & !cli::STRONG_NAME_SIGNED,
        entry: facts.entry.number(),
        resources_rva: contents.resources_rva,
        resources_size: contents.resources_size,
    }
}

/// Lays the headers.
fn push_headers(
    alloc: Global,
    parts: &mut Parts,
    facts: &Facts,
    lengths: &Lengths,
) -> Result<(), NoMemory>
    requires { parts.old ≡ laid 0 (2 ^ 26) [] }
    ensures { OnOk result (parts.new ≡ laid 0 (2 ^ 26) (header_parts facts.now lengths.now.used lengths.now.raw lengths.now.image)) }
{
    let kind = kind_of(facts.plus);
    let dos = dos_header(alloc)?;
    parts.push(1, dos.as_slice())?;
    let file = file_header(alloc, &kind, facts)?;
    parts.push(1, file.as_slice())?;
    let optional = optional_header(alloc, &kind, facts, lengths.raw, lengths.image)?;
    parts.push(1, optional.as_slice())?;
    let header = section_header(alloc, lengths.used, lengths.raw)?;
    parts.push(1, header.as_slice())?;
    Ok(())
}

/// Lays the section behind them.
fn push_section(
    alloc: Global,
    parts: &mut Parts,
    numbers: &CliNumbers,
    contents: &Contents,
) -> Result<(), NoMemory>
    ensures { OnOk result ((headers : List Part) → parts.old ≡ laid 0 (2 ^ 26) headers → parts.new ≡ laid 0 (2 ^ 26) (headers ++ section_parts numbers.now contents.now)) }
{
    let header = cli_header(alloc, numbers)?;
    parts.push(section::PLACE, header.as_slice())?;
    parts.push(1, contents.body.as_slice())?;
    parts.push(4, contents.metadata.as_slice())?;
    parts.fill(optional::FILE_ALIGNMENT)?;
    Ok(())
}

/// The image with these facts and contents (ECMA-335 II.25): the headers, and one section with the CLI header, the contents and
/// the metadata. It has no signature. Refused exactly where it would pass 2^26 bytes.
pub fn write_pe(alloc: Global, facts: &Facts, contents: &Contents) -> Result<Bytes, PeWriteFail>
    ensures { WritesImage facts.now contents.now result }
{
    let length = image_length(contents.body.len() as u64, contents.metadata.len() as u64)?;
    if length > MAX_LENGTH {
        return Err(PeWriteFail::TooLarge(length));
    }
    let lengths = lengths_of(contents);
    let numbers = cli_numbers(facts, contents, lengths.metadata);
    let mut parts = Parts::new(alloc, 0, MAX_LENGTH);
    push_headers(alloc, &mut parts, facts, &lengths)?;
    push_section(alloc, &mut parts, &numbers, contents)?;
    match parts.into_bytes() {
        Ok(bytes) => Ok(bytes),
        Err(long) => Err(PeWriteFail::TooLarge(long.size)),
    }
}
