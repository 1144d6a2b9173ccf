ghost use Rattle.std.specs.Prelude.{◌≡◌, ◌+◌, ◌≤◌, length, IfOk};
ghost use Rattle.pe_image.specs.Places.{first_refusal};
ghost use Rattle.pe_image.specs.Sections.{section_list};
ghost use Rattle.pe_image.specs.CliHeader.{cli_header};
ghost use Rattle.pe_image.specs.Metadata.{metadata, metadata_extent, version_length, version_text, has_root, root_conditions};

use crate::number::{u32_at, zero_place};
use crate::places::{cli, root};
use crate::refusal::PeRefusal;
use crate::section::{Section, bytes_of, place_of};
use cil_base::{Bytes, List, NoMemory};
use std::alloc::Global;

/// Bytes of the file.
#[derive(Clone, Copy)]
pub(crate) struct Extent {
    /// The place of the first one.
    pub start: usize,
    /// How many there are.
    pub len: usize,
}

/// Whether the metadata begins with `BSJB` and has a whole root.
fn has_root(bytes: &[u8]) -> bool
    ensures { result ≡ has_root bytes.now }
{
    bytes.len() >= root::SIZE
        && u32_at(bytes, 0) == root::SIGNATURE
        && bytes.len() - root::SIZE >= u32_at(bytes, root::LENGTH) as usize
}

/// Where the metadata lies that the CLI header names, or the first of the refusals BadCli and BadRoot.
#[tactic(auto, unfolding(crate::specs::Metadata::root_conditions, crate::specs::Metadata::metadata, crate::specs::Metadata::metadata_extent, crate::specs::CliHeader::cli_header, crate::specs::Sections::bytes_from, crate::specs::Sections::place))]
pub(crate) fn read_root(
    file: &[u8],
    sections: &[Section],
    header: &[u8],
) -> Result<Extent, PeRefusal>
    requires sections { sections.now ≡ section_list file.now }
    requires header { header.now ≡ cli_header file.now }
    ensures { result ≡ first_refusal (root_conditions file.now) (metadata_extent file.now) }
{
    if header.len() < cli::SIZE {
        return Err(PeRefusal::BadCli);
    }
    let rva = u32_at(header, cli::META_DATA_RVA);
    let len = u32_at(header, cli::META_DATA_SIZE) as usize;
    let bytes = bytes_of(file, sections, rva);
    if bytes.len() < len || !has_root(&bytes[..len]) {
        return Err(PeRefusal::BadRoot);
    }
    let start = place_of(sections, rva).unwrap_or(0);
    Ok(Extent { start, len })
}

/// The bytes of the metadata of a file with a whole root.
pub(crate) fn metadata_bytes(file: &[u8], extent: Extent) -> &[u8]
    requires { first_refusal (root_conditions file.now) (metadata_extent file.now) ≡ Ok extent }
    ensures bytes { result.now ≡ metadata file.now }
    ensures whole { 20 + version_length result.now ≤ length result.now }
{
    &file[extent.start..extent.start + extent.len]
}

/// The version text, up to its first zero byte.
pub(crate) fn version(alloc: Global, bytes: &[u8]) -> Result<Bytes, NoMemory>
    requires { 20 + version_length bytes.now ≤ length bytes.now }
    ensures { IfOk result (λ version. version ≡ version_text bytes.now) }
{
    let len = u32_at(bytes, root::LENGTH) as usize;
    let text = &bytes[root::VERSION..root::VERSION + len];
    List::from_slice(alloc, &text[..zero_place(text)])
}
