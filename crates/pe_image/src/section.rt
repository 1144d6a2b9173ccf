ghost use Rattle.std.specs.Prelude.{◌≡◌, ◌+◌, ◌*◌, ◌≤◌, length, IfOk, option_map, option_copied};
ghost use Rattle.pe_image.specs.Sections.{section_header_at, section_headers_at, section_of, has_rva, raw_place_of, raw_end, bytes_in};

use crate::number::u32_at;
use crate::places::section_header;
use cil_base::{List, NoMemory};
use std::alloc::Global;

/// Where a section is loaded, and where its bytes lie in the file.
#[derive(Clone, Copy)]
pub(crate) struct Section {
    /// The RVA of its first byte.
    pub virtual_address: u32,
    /// The number of its bytes in the file.
    pub raw_size: u32,
    /// The place in the file of the first of them.
    pub raw_place: u32,
}

impl Section {
    /// Whether an RVA lies in the raw data. The end is summed in 64 bits.
    pub(crate) fn has(&self, rva: u32) -> bool
        ensures { result ≡ has_rva rva self.now }
    {
        self.virtual_address <= rva
            && u64::from(rva) < u64::from(self.virtual_address) + u64::from(self.raw_size)
    }

    /// The place in the file of an RVA that the section has.
    pub(crate) fn place(&self, rva: u32) -> usize
        requires { self.now.virtual_address ≤ rva }
        ensures { result ≡ raw_place_of rva self.now }
    {
        (rva - self.virtual_address) as usize + self.raw_place as usize
    }

    /// The place in the file after the last byte.
    fn end(&self) -> usize
        ensures { result ≡ raw_end self.now }
    {
        self.raw_place as usize + self.raw_size as usize
    }
}

/// The section whose header stands at a place of the file.
#[tactic(auto, unfolding(crate::specs::Sections::section_header_at))]
fn read_section(file: &[u8], place: usize) -> Section
    requires { place + 40 ≤ length file.now }
    ensures { result ≡ section_header_at file.now place }
{
    Section {
        virtual_address: u32_at(file, place + section_header::VIRTUAL_ADDRESS),
        raw_size: u32_at(file, place + section_header::SIZE_OF_RAW_DATA),
        raw_place: u32_at(file, place + section_header::POINTER_TO_RAW_DATA),
    }
}

/// The sections of `count` headers, one after the other from a place of the file.
#[tactic(auto, unfolding(crate::specs::Sections::section_headers_at))]
pub(crate) fn read_sections(
    alloc: Global,
    file: &[u8],
    place: usize,
    count: u16,
) -> Result<List<Section>, NoMemory>
    requires { place + 40 * count ≤ length file.now }
    ensures { IfOk result (λ sections. sections ≡ section_headers_at file.now place count) }
{
    let mut sections = List::new(alloc);
    for number in 0..usize::from(count) {
        sections.push(read_section(file, place + section_header::SIZE * number))?;
    }
    Ok(sections)
}

/// The first section that has an RVA.
pub(crate) fn section_with(sections: &[Section], rva: u32) -> Option<Section>
    ensures { result ≡ section_of sections.now rva }
{
    sections.iter().find(|section| section.has(rva)).copied()
}

/// The bytes of a section from an RVA that it has, up to the end of its raw data or of the file.
pub(crate) fn bytes_of<'a>(file: &'a [u8], sections: &[Section], rva: u32) -> &'a [u8]
    ensures { result.now ≡ bytes_in file.now rva (section_of sections.now rva) }
{
    let Some(section) = section_with(sections, rva) else {
        return &[];
    };
    let place = section.place(rva);
    let end = section.end().min(file.len());
    if end <= place {
        return &[];
    }
    &file[place..end]
}

/// The place in the file of an RVA, None where no section has it.
pub(crate) fn place_of(sections: &[Section], rva: u32) -> Option<usize>
    ensures { result ≡ option_map (raw_place_of rva) (section_of sections.now rva) }
{
    let section = section_with(sections, rva)?;
    Some(section.place(rva))
}
