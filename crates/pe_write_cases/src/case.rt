use crate::words::{bytes, four, number, two};
use cil_base::{Bytes, NoMemory, Token};
use pe_image::Facts;
use pe_write::StreamBytes;
use std::alloc::Global;

/// What a line says beside its facts.
#[derive(Drop)]
pub(crate) struct Rest {
    pub body: Bytes,
    pub resources_rva: u32,
    pub resources_size: u32,
    pub streams: StreamBytes,
}

/// The facts of the first words, with this version text.
fn facts(words: &[&str], version: Bytes) -> Option<Facts> {
    Some(Facts {
        plus: number(words, 0)? == 1,
        machine: two(words, 1)?,
        time: four(words, 2)?,
        characteristics: two(words, 3)?,
        base: number(words, 4)?,
        subsystem: two(words, 5)?,
        dll: two(words, 6)?,
        runtime_major: two(words, 7)?,
        runtime_minor: two(words, 8)?,
        flags: four(words, 9)?,
        native: false,
        entry: Token::from_number(four(words, 10)?),
        version,
    })
}

/// The facts of a line; none where it has no facts.
pub(crate) fn read_facts(alloc: Global, words: &[&str]) -> Result<Option<Facts>, NoMemory> {
    let Some(version) = bytes(alloc, words, 11)? else {
        return Ok(None);
    };
    Ok(facts(words, version))
}

/// The five streams.
fn read_streams(alloc: Global, words: &[&str]) -> Result<Option<StreamBytes>, NoMemory> {
    let Some(tables) = bytes(alloc, words, 15)? else {
        return Ok(None);
    };
    let Some(strings) = bytes(alloc, words, 16)? else {
        return Ok(None);
    };
    let Some(users) = bytes(alloc, words, 17)? else {
        return Ok(None);
    };
    let Some(guids) = bytes(alloc, words, 18)? else {
        return Ok(None);
    };
    let Some(blobs) = bytes(alloc, words, 19)? else {
        return Ok(None);
    };
    Ok(Some(StreamBytes {
        tables,
        strings,
        users,
        guids,
        blobs,
    }))
}

/// The rest of a line; none where it is no case.
pub(crate) fn read_rest(alloc: Global, words: &[&str]) -> Result<Option<Rest>, NoMemory> {
    let (Some(resources_rva), Some(resources_size)) = (four(words, 13), four(words, 14)) else {
        return Ok(None);
    };
    let Some(body) = bytes(alloc, words, 12)? else {
        return Ok(None);
    };
    let Some(streams) = read_streams(alloc, words)? else {
        return Ok(None);
    };
    Ok(Some(Rest {
        body,
        resources_rva,
        resources_size,
        streams,
    }))
}
