use crate::case::{Rest, read_facts, read_rest};
use cil_base::{Bytes, NoMemory};
use pe_image::Facts;
use pe_write::{Contents, PeWriteFail, write_metadata, write_pe};
use std::alloc::Global;

/// The image of a case.
fn image(alloc: Global, facts: &Facts, rest: Rest) -> Result<Bytes, PeWriteFail> {
    let metadata = write_metadata(alloc, facts.version.as_slice(), &rest.streams)?;
    let contents = Contents {
        body: rest.body,
        resources_rva: rest.resources_rva,
        resources_size: rest.resources_size,
        metadata,
    };
    write_pe(alloc, facts, &contents)
}

/// An image in hex, or its length where it is long.
fn shown(alloc: Global, image: &[u8]) -> Result<String, NoMemory> {
    if image.len() <= 4096 {
        return Ok(hex::encode(alloc, image)?);
    }
    Ok(format!(in alloc; "written {}", image.len())?)
}

/// The text of an image, or of what came of it.
fn text(alloc: Global, image: Result<Bytes, PeWriteFail>) -> Result<String, NoMemory> {
    match image {
        Ok(bytes) => shown(alloc, bytes.as_slice()),
        Err(PeWriteFail::TooLarge(size)) => Ok(format!(in alloc; "too large {size}")?),
        Err(PeWriteFail::NoMemory) => Err(NoMemory),
    }
}

/// The answer to a case; none where the line is no case.
pub(crate) fn answer(alloc: Global, line: &str) -> Result<Option<String>, NoMemory> {
    let words: Vec<&str> = line.split_whitespace().collect(alloc)?;
    if words.len() != 20 {
        return Ok(None);
    }
    let Some(facts) = read_facts(alloc, words.as_slice())? else {
        return Ok(None);
    };
    let Some(rest) = read_rest(alloc, words.as_slice())? else {
        return Ok(None);
    };
    let text = text(alloc, image(alloc, &facts, rest))?;
    Ok(Some(text))
}
