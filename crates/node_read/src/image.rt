ghost use Rattle.std.specs.Prelude.{◌≡◌};
ghost use Rattle.node_model.specs.Keys.{image_rows};
ghost use Rattle.node_model.specs.Streams.{image_streams};
ghost use Rattle.node_read.specs.Image.{OpensImage};
ghost use Rattle.node_read.specs.inner.Opened.{streams_of};
ghost use Rattle.pe_image.specs.CliHeader.{resources_rva};
ghost use Rattle.pe_image.specs.Facts.{image_facts};
ghost use Rattle.pe_image.specs.Sections.{bytes_from};

use crate::streams::Streams;
use cil_base::NoMemory;
use md_tables::{LinkIndex, Tables, TablesRefusal};
use pe_image::{Facts, Pe, PeFail, PeRefusal, StreamName};
use std::alloc::Global;
use std::marker::Model;

/// An image: a file that was opened, and never changes. Contracts see an image as its bytes.
#[derive(Drop)]
pub struct Image {
    file: Vec<u8>,
    pe: Pe,
    tables: Tables,
    links: Option<LinkIndex>,
}

impl Model for Image {
    ghost use Rattle.std.specs.Prelude.{ℕ, List};
    ghost use Rattle.node_read.specs.inner.Opened.{IsOpened};

    ghost Value = { List ℕ };

    ghost view = { λ i. i.file.items };

    ghost invariant = { λ i. IsOpened i.file.items i.pe i.tables i.links };
}

/// Why a file is not opened. The refusals of the headers come before those of the tables.
#[derive(Clone, Copy, PartialEq, Eq)]
pub enum OpenRefusal {
    /// One of the headers and the streams.
    Pe(PeRefusal),
    /// One of the stream of the tables.
    Tables(TablesRefusal),
    /// Memory was wanted and not found.
    NoMemory,
}

impl Image {
    /// Opens a file, which is moved in, or answers its first refusal (ECMA-335 II.24.2, II.25). The index of the links
    /// that it makes takes 8 bytes for each link and row of its table.
    pub fn open(alloc: Global, file: Vec<u8>) -> Result<Image, OpenRefusal>
        ensures { OpensImage result file.items }
    {
        let mut image = Image::open_unindexed(alloc, file)?;
        match image.index_links(alloc) {
            Ok(()) => Ok(image),
            Err(NoMemory) => Err(OpenRefusal::NoMemory),
        }
    }

    /// Opens a file as `open` does, without the index of its links: where rows are asked for that belong to a row by a
    /// link, the link's whole table is gone over. For a caller that asks for none or few.
    pub fn open_unindexed(alloc: Global, file: Vec<u8>) -> Result<Image, OpenRefusal>
        ensures { OpensImage result file.items }
    {
        let pe = match Pe::open(alloc, file.as_slice()) {
            Ok(pe) => pe,
            Err(PeFail::Refused(refusal)) => return Err(OpenRefusal::Pe(refusal)),
            Err(PeFail::NoMemory) => return Err(OpenRefusal::NoMemory),
        };
        match Tables::open(pe.stream(file.as_slice(), StreamName::Tables)) {
            Ok(tables) => Ok(Image {
                file,
                pe,
                tables,
                links: None,
            }),
            Err(refusal) => Err(OpenRefusal::Tables(refusal)),
        }
    }

    /// Makes the index of the links.
    fn index_links(&mut self, alloc: Global) -> Result<(), NoMemory>
        ensures { self.new ≡ self.old }
    {
        let stream = self.pe.stream(self.file.as_slice(), StreamName::Tables);
        let links = LinkIndex::open(alloc, &self.tables, stream)?;
        self.links = Some(links);
        Ok(())
    }

    /// The number of rows of a table, 0 where the image does not have it.
    #[tactic(auto, unfolding(node_model::specs::Keys::image_rows))]
    pub fn rows(&self, table: u8) -> u32
        ensures { result ≡ image_rows self.now table }
    {
        self.tables.rows(table)
    }

    /// The streams, with the tables and the index of their links, where there is one.
    #[tactic(auto, unfolding(node_model::specs::Streams::image_streams))]
    pub(crate) fn streams(&self) -> Streams<'_>
        ensures { streams_of result ≡ image_streams self.now }
    {
        let file = self.file.as_slice();
        Streams {
            head: &self.tables,
            links: &self.links,
            tables: self.pe.stream(file, StreamName::Tables),
            strings: self.pe.stream(file, StreamName::Strings),
            users: self.pe.stream(file, StreamName::UserStrings),
            guids: self.pe.stream(file, StreamName::Guids),
            blobs: self.pe.stream(file, StreamName::Blobs),
        }
    }

    /// The bytes of the file from an RVA to the end of its section.
    pub(crate) fn bytes_at(&self, rva: u32) -> &[u8]
        ensures { result.now ≡ bytes_from self.now rva }
    {
        self.pe.bytes_at(self.file.as_slice(), rva)
    }

    /// The RVA of the resources.
    pub(crate) fn resources(&self) -> u32
        ensures { result ≡ resources_rva self.now }
    {
        self.pe.resources()
    }

    /// What the headers say of the image as a whole.
    pub(crate) fn facts(&self) -> &Facts
        ensures { result.now ≡ image_facts self.now }
    {
        self.pe.facts()
    }
}
