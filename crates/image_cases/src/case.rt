use pe_image::StreamName;
use std::alloc::{AllocError, Global};

/// What is asked of an image.
#[derive(Clone, Copy)]
pub(crate) enum Question {
    Open,
    Resources,
    At(u32),
    Stream(StreamName),
}

/// A question and the file that it is about.
#[derive(Drop)]
pub(crate) struct Case {
    pub question: Question,
    pub file: Vec<u8>,
}

/// The bytes of pairs of hex digits. None where the text is no such pairs.
pub(crate) fn bytes(alloc: Global, text: &str) -> Result<Option<Vec<u8>>, AllocError> {
    match hex::decode(alloc, text) {
        Ok(bytes) => Ok(Some(bytes)),
        Err(hex::FromHexError::OutOfMemory) => Err(AllocError),
        Err(_) => Ok(None),
    }
}

fn stream_name(text: &str) -> Option<StreamName> {
    match text {
        "Tables" => Some(StreamName::Tables),
        "Strings" => Some(StreamName::Strings),
        "UserStrings" => Some(StreamName::UserStrings),
        "Guids" => Some(StreamName::Guids),
        "Blobs" => Some(StreamName::Blobs),
        _ => None,
    }
}

/// The same bytes cut to a length, or with zeros up to it.
fn with_length(alloc: Global, file: &[u8], length: usize) -> Result<Vec<u8>, AllocError> {
    if length <= file.len() {
        return Vec::from_slice(alloc, &file[..length]);
    }
    let mut longer = Vec::from_slice(alloc, file)?;
    for _ in file.len()..length {
        longer.push(0)?;
    }
    Ok(longer)
}

/// Writes a part into a file at a place, as far as the file goes.
fn put(file: &mut [u8], place: usize, part: &[u8]) {
    for (to, from) in file.iter_mut().skip(place).zip(part.iter()) {
        *to = *from;
    }
}

/// The file with a change. None where the text is no change.
fn with_change(
    alloc: Global,
    mut file: Vec<u8>,
    text: &str,
) -> Result<Option<Vec<u8>>, AllocError> {
    let Some((place, part)) = text.split_once('=') else {
        return Ok(None);
    };
    if place == "length" {
        return match usize::from_str_radix(part, 16) {
            Ok(length) => Ok(Some(with_length(alloc, file.as_slice(), length)?)),
            Err(_) => Ok(None),
        };
    }
    let Ok(place) = usize::from_str_radix(place, 16) else {
        return Ok(None);
    };
    let Some(part) = bytes(alloc, part)? else {
        return Ok(None);
    };
    put(file.as_mut_slice(), place, part.as_slice());
    Ok(Some(file))
}

/// The question that begins a line, and the rest of the line.
fn read_question(line: &str) -> Option<(Question, &str)> {
    if let Some(rest) = line.strip_prefix("open") {
        return Some((Question::Open, rest));
    }
    if let Some(rest) = line.strip_prefix("resources") {
        return Some((Question::Resources, rest));
    }
    if let Some(rest) = line.strip_prefix("at ") {
        let (rva, rest) = rest.split_once(' ').unwrap_or((rest, ""));
        return Some((Question::At(u32::from_str_radix(rva, 16).ok()?), rest));
    }
    let rest = line.strip_prefix("stream ")?;
    let (name, rest) = rest.split_once(' ').unwrap_or((rest, ""));
    Some((Question::Stream(stream_name(name)?), rest))
}

impl Case {
    /// The case of a line over an image. None where the line is no case.
    pub(crate) fn read(
        alloc: Global,
        image: &[u8],
        line: &str,
    ) -> Result<Option<Case>, AllocError> {
        let Some((question, changes)) = read_question(line) else {
            return Ok(None);
        };
        let mut file = Vec::from_slice(alloc, image)?;
        for change in changes.split_whitespace() {
            match with_change(alloc, file, change)? {
                Some(changed) => file = changed,
                None => return Ok(None),
            }
        }
        Ok(Some(Case { question, file }))
    }
}
