ghost use Rattle.std.specs.Prelude.{◌≡◌, ◌+◌, ◌≤◌, length, true, false, IfSome, MatchOption, option_copied};
ghost use Rattle.pe_image.specs.Streams.{bad_header, has_stream_name, header_width, name_window, stream_at, stream_meaning, stream_named};
ghost use Rattle.pe_image.specs.inner.Reading.{FindsStreams, ListsStreams};
ghost use Rattle.pe_image.specs.Metadata.{version_length};

use crate::number::{u16_at, u32_at, zero_place};
use crate::places::{root, stream_header};
use crate::refusal::{PeFail, PeRefusal};
use cil_base::List;
use std::alloc::Global;

/// The streams that metadata may have (ECMA-335 II.24.2.2).
#[derive(Clone, Copy, PartialEq, Eq)]
pub enum StreamName {
    /// `#~`, the tables.
    Tables,
    /// `#Strings`, the names.
    Strings,
    /// `#US`, the texts of instructions.
    UserStrings,
    /// `#GUID`.
    Guids,
    /// `#Blob`, signatures and values.
    Blobs,
}

/// A stream, by its header.
#[derive(Clone, Copy)]
pub(crate) struct Stream {
    /// None for a name that is none of the five.
    pub name: Option<StreamName>,
    /// Where it begins, in bytes from the start of the metadata.
    pub offset: u32,
    /// How many bytes it has.
    pub size: u32,
}

impl Stream {
    /// Whether the stream has a name.
    fn has(&self, name: StreamName) -> bool
        ensures { result ≡ has_stream_name name self.now.name }
    {
        self.name == Some(name)
    }
}

/// The stream that a name means.
fn meaning(name: &[u8]) -> Option<StreamName>
    ensures { result ≡ stream_meaning name.now }
{
    if name == b"#~".as_slice() {
        return Some(StreamName::Tables);
    }
    if name == b"#Strings".as_slice() {
        return Some(StreamName::Strings);
    }
    if name == b"#US".as_slice() {
        return Some(StreamName::UserStrings);
    }
    if name == b"#GUID".as_slice() {
        return Some(StreamName::Guids);
    }
    if name == b"#Blob".as_slice() {
        return Some(StreamName::Blobs);
    }
    None
}

/// At most 32 bytes from the start of the name in the header at `place`.
fn window(bytes: &[u8], place: usize) -> &[u8]
    requires { place ≤ length bytes.now }
    ensures { result.now ≡ name_window bytes.now place }
{
    let start = place + stream_header::NAME;
    let end = (start + stream_header::NAME_WINDOW).min(bytes.len());
    if end <= start {
        return &[];
    }
    &bytes[start..end]
}

/// The stream of the header at `place`, with the bytes of the header. None where the name has no zero byte, or the header
/// or the stream passes the metadata.
#[tactic(auto, unfolding(crate::specs::Streams::bad_header, crate::specs::Streams::header_width, crate::specs::Streams::name_length, crate::specs::Streams::stream_at))]
fn read_header(bytes: &[u8], place: usize) -> Option<(Stream, usize)>
    requires { place ≤ length bytes.now }
    ensures bad { MatchOption result (bad_header bytes.now place ≡ true) (λ _. bad_header bytes.now place ≡ false) }
    ensures stream { IfSome result (λ header. header.0 ≡ stream_at bytes.now place) }
    ensures width { IfSome result (λ header. header.1 ≡ header_width bytes.now place) }
    ensures within { IfSome result (λ header. place + header.1 ≤ length bytes.now) }
{
    let window = window(bytes, place);
    let name_length = zero_place(window);
    let width = stream_header::NAME + (name_length / 4 + 1) * 4;
    if name_length == window.len() || bytes.len() < place + width {
        return None;
    }
    let offset = u32_at(bytes, place + stream_header::OFFSET);
    let size = u32_at(bytes, place + stream_header::SIZE);
    if bytes.len() < offset as usize + size as usize {
        return None;
    }
    let name = meaning(&window[..name_length]);
    Some((Stream { name, offset, size }, width))
}

/// The streams of all headers of the metadata, or BadStreams.
fn list_streams(alloc: Global, bytes: &[u8]) -> Result<List<Stream>, PeFail>
    requires { 20 + version_length bytes.now ≤ length bytes.now }
    ensures { ListsStreams result bytes.now }
{
    let length = u32_at(bytes, root::LENGTH) as usize;
    let mut place = root::SIZE + length;
    let mut streams = List::new(alloc);
    for number in 0..u16_at(bytes, root::STREAMS + length) {
        let Some((stream, width)) = read_header(bytes, place) else {
            return Err(PeFail::Refused(PeRefusal::BadStreams));
        };
        streams.push(stream)?;
        place += width;
    }
    Ok(streams)
}

/// The first stream of a name.
pub(crate) fn stream_with(streams: &[Stream], name: StreamName) -> Option<Stream>
    ensures { result ≡ stream_named streams.now name }
{
    streams.iter().find(|stream| stream.has(name)).copied()
}

/// The streams of the metadata, or the first of the refusals BadStreams and NoTables.
#[tactic(auto, unfolding(crate::specs::Streams::stream_conditions))]
pub(crate) fn read_streams(alloc: Global, bytes: &[u8]) -> Result<List<Stream>, PeFail>
    requires { 20 + version_length bytes.now ≤ length bytes.now }
    ensures { FindsStreams result bytes.now }
{
    let streams = list_streams(alloc, bytes)?;
    if stream_with(streams.as_slice(), StreamName::Tables).is_none() {
        return Err(PeFail::Refused(PeRefusal::NoTables));
    }
    Ok(streams)
}
