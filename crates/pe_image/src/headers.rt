ghost use Rattle.std.specs.Prelude.{◌≡◌, ◌+◌, ◌*◌, ◌<◌, ◌≤◌, ◌^◌, length, IfOk};
ghost use Rattle.pe_image.specs.Places.{first_refusal};
ghost use Rattle.pe_image.specs.Headers.{header_conditions, headers_of, is_plus, magic_conditions, optional_header, pe_signature, room_conditions, signature_conditions, wider_by};

use crate::number::{u16_at, u32_at};
use crate::places::{
    MAX_LENGTH, PE_SIGNATURE, PE_SIGNATURE_SIZE, coff, directory, dos, optional, section_header,
};
use crate::refusal::PeRefusal;

/// What later parts need of the headers. Places count from the file's start.
#[derive(Clone, Copy)]
pub(crate) struct Headers {
    /// Whether the optional header is that of PE32+.
    pub plus: bool,
    /// The place of the file header, after the PE signature.
    pub coff: usize,
    /// The place of the optional header, after the file header.
    pub optional: usize,
    /// The place of the first section header.
    pub sections: usize,
    /// The number of section headers.
    pub count: u16,
    /// The RVA of the CLI header.
    pub cli: u32,
}

/// The place of the PE signature, or the first of TooLarge, NoDos and NoPe.
#[tactic(auto, unfolding(crate::specs::Headers::signature_conditions, crate::specs::Headers::pe_signature))]
fn signature_place(file: &[u8]) -> Result<usize, PeRefusal>
    ensures read { result ≡ first_refusal (signature_conditions file.now) (pe_signature file.now) }
    ensures room { IfOk result (λ place. place + 24 ≤ length file.now) }
    ensures low { IfOk result (λ place. place < 2 ^ 32) }
{
    if file.len() > MAX_LENGTH {
        return Err(PeRefusal::TooLarge);
    }
    if file.len() < 2 || u16_at(file, 0) != dos::MAGIC {
        return Err(PeRefusal::NoDos);
    }
    if file.len() < dos::LFANEW + 4 {
        return Err(PeRefusal::NoPe);
    }
    let place = u32_at(file, dos::LFANEW) as usize;
    if file.len() < place + PE_SIGNATURE_SIZE + coff::SIZE || u32_at(file, place) != PE_SIGNATURE {
        return Err(PeRefusal::NoPe);
    }
    Ok(place)
}

/// Whether the optional header is that of PE32+, or BadMagic.
#[tactic(auto, unfolding(crate::specs::Headers::magic_conditions, crate::specs::Headers::is_plus, crate::specs::Headers::magic))]
fn read_magic(file: &[u8], place: usize) -> Result<bool, PeRefusal>
    requires there { place ≡ optional_header file.now }
    requires low { place < 2 ^ 33 }
    ensures { result ≡ first_refusal (magic_conditions file.now) (is_plus file.now) }
{
    if file.len() < place + 2 {
        return Err(PeRefusal::BadMagic(0));
    }
    match u16_at(file, place) {
        optional::MAGIC_PE32 => Ok(false),
        optional::MAGIC_PE32_PLUS => Ok(true),
        magic => Err(PeRefusal::BadMagic(u64::from(magic))),
    }
}

/// How much later than in PE32 the directories and their number stand.
fn wider(plus: bool) -> usize
    ensures value { result ≡ wider_by plus }
    ensures low { result ≤ 16 }
{
    if plus { optional::WIDER } else { 0 }
}

/// The section headers and the RVA of the CLI header, or the first of BadSections and NoCli.
#[tactic(auto, unfolding(crate::specs::Headers::room_conditions))]
fn read_room(file: &[u8], signature: usize, plus: bool) -> Result<Headers, PeRefusal>
    requires signature { signature ≡ pe_signature file.now }
    requires plus { plus ≡ is_plus file.now }
    requires room { signature + 24 ≤ length file.now }
    requires low { signature < 2 ^ 32 }
    ensures read { result ≡ first_refusal (room_conditions file.now) (headers_of file.now) }
    ensures optional { IfOk result (λ headers. (headers.coff + 20 ≡ headers.optional) × (headers.optional + 96 ≤ length file.now)) }
    ensures sections { IfOk result (λ headers. headers.sections + 40 * headers.count ≤ length file.now) }
{
    let coff = signature + PE_SIGNATURE_SIZE;
    let optional = coff + coff::SIZE;
    let size = usize::from(u16_at(file, coff + coff::SIZE_OF_OPTIONAL_HEADER));
    let count = u16_at(file, coff + coff::NUMBER_OF_SECTIONS);
    let sections = optional + size;
    let first = optional::DIRECTORIES + wider(plus);
    if file.len() < optional + first
        || file.len() < sections + section_header::SIZE * usize::from(count)
    {
        return Err(PeRefusal::BadSections);
    }
    let end = first + directory::SIZE * (directory::CLI_HEADER + 1);
    let directories = u32_at(
        file,
        optional + optional::NUMBER_OF_DIRECTORIES + wider(plus),
    );
    if directories as usize <= directory::CLI_HEADER || size < end || file.len() < optional + end {
        return Err(PeRefusal::NoCli);
    }
    let cli = u32_at(
        file,
        optional + first + directory::SIZE * directory::CLI_HEADER,
    );
    if cli == 0 {
        return Err(PeRefusal::NoCli);
    }
    Ok(Headers {
        plus,
        coff,
        optional,
        sections,
        count,
        cli,
    })
}

/// Reads the headers, or says which of the first six refusals comes first.
pub(crate) fn read_headers(file: &[u8]) -> Result<Headers, PeRefusal>
    ensures read { result ≡ first_refusal (header_conditions file.now) (headers_of file.now) }
    ensures optional { IfOk result (λ headers. (headers.coff + 20 ≡ headers.optional) × (headers.optional + 96 ≤ length file.now)) }
    ensures sections { IfOk result (λ headers. headers.sections + 40 * headers.count ≤ length file.now) }
{
    let signature = signature_place(file)?;
    let plus = read_magic(file, signature + PE_SIGNATURE_SIZE + coff::SIZE)?;
    read_room(file, signature, plus)
}
