ghost use Rattle.std.specs.Prelude.{◌≡◌, ℕ, List};
ghost use Rattle.pe_image.specs.Sections.{place, bytes_from};
ghost use Rattle.pe_image.specs.Streams.{stream};
ghost use Rattle.pe_image.specs.CliHeader.{resources_rva};
ghost use Rattle.pe_image.specs.Facts.{image_facts};
ghost use Rattle.pe_image.specs.Layout.{pe_layout, OpensPe};

use crate::facts::{Facts, read_facts, read_resources};
use crate::headers::read_headers;
use crate::metadata::{Extent, metadata_bytes, read_root};
use crate::refusal::PeFail;
use crate::section::{Section, bytes_of, place_of, read_sections};
use crate::stream::{Stream, StreamName, read_streams, stream_with};
use cil_base::List;
use std::alloc::Global;

/// An opened image. It keeps no bytes: the calls that read some are given the file again.
#[derive(Drop)]
pub struct Pe {
    sections: List<Section>,
    root: Extent,
    streams: List<Stream>,
    facts: Facts,
    resources: u32,
}

impl Pe {
    /// Opens a file: what its headers lay out, or the first refusal whose condition holds of it (ECMA-335 II.24.2, II.25).
    pub fn open(alloc: Global, file: &[u8]) -> Result<Pe, PeFail>
        ensures { OpensPe result file.now }
    {
        let headers = read_headers(file)?;
        let sections = read_sections(alloc, file, headers.sections, headers.count)?;
        let cli = bytes_of(file, sections.as_slice(), headers.cli);
        let root = read_root(file, sections.as_slice(), cli)?;
        let bytes = metadata_bytes(file, root);
        let streams = read_streams(alloc, bytes)?;
        let facts = read_facts(alloc, file, headers, cli, bytes)?;
        let resources = read_resources(file, cli);
        Ok(Pe {
            sections,
            root,
            streams,
            facts,
            resources,
        })
    }

    /// The place in the file of an RVA, in the first section that has it. None where no section has it.
    pub fn place(&self, rva: u32) -> Option<usize>
        ensures { (b : List ℕ) → pe_layout b ≡ Ok self.now → result ≡ place b rva }
    {
        place_of(self.sections.as_slice(), rva)
    }

    /// The bytes of the file from an RVA to the end of its section's raw data or of the file, whichever comes first. Empty
    /// where no section has the RVA. `file` is the one that was opened.
    pub fn bytes_at<'a>(&self, file: &'a [u8], rva: u32) -> &'a [u8]
        requires { pe_layout file.now ≡ Ok self.now }
        ensures { result.now ≡ bytes_from file.now rva }
    {
        bytes_of(file, self.sections.as_slice(), rva)
    }

    /// The bytes of a stream: of two with one name the first, and none where it is not there. `file` is the one that was
    /// opened.
    pub fn stream<'a>(&self, file: &'a [u8], name: StreamName) -> &'a [u8]
        requires { pe_layout file.now ≡ Ok self.now }
        ensures { result.now ≡ stream file.now name }
    {
        let Some(found) = stream_with(self.streams.as_slice(), name) else {
            return &[];
        };
        let bytes = metadata_bytes(file, self.root);
        let start = found.offset as usize;
        &bytes[start..start + found.size as usize]
    }

    /// The RVA of the resources, from which their offsets count; 0 where there are none (ECMA-335 II.25.3.3).
    pub fn resources(&self) -> u32
        ensures { (b : List ℕ) → pe_layout b ≡ Ok self.now → result ≡ resources_rva b }
    {
        self.resources
    }

    /// What the headers say of the image as a whole.
    pub fn facts(&self) -> &Facts
        ensures { (b : List ℕ) → pe_layout b ≡ Ok self.now → result.now ≡ image_facts b }
    {
        &self.facts
    }
}
