ghost use Rattle.std.specs.Prelude.{◌≡◌, ◌+◌, ◌<◌, ◌^◌, ◌++◌, [], replicate, IfOk, OnErr, OnOk};
ghost use Rattle.std.specs.Int.{next_multiple_of};
ghost use Rattle.laid_parts.specs.LaidParts.{HandsOut, laid, laid_part, padding, with_part};

use cil_base::{Bytes, List, NoMemory};
use std::alloc::Global;
use std::marker::Model;

/// Parts that are laid one after the other. While they are not too many their bytes are kept; afterwards they are only
/// counted, so that at the end it can be told how many there are.
#[derive(Drop)]
pub struct Parts {
    start: u64,
    most: u64,
    size: u64,
    bytes: Vec<u8>,
}

impl Model for Parts {
    ghost use Rattle.laid_parts.specs.LaidParts.{LaidBytes, kept};

    ghost Value = { LaidBytes };

    ghost view = { λ p. kept p.start p.most p.size p.bytes.items };
}

/// There are more bytes than may be kept.
#[derive(Clone, Copy, Debug, PartialEq, Eq)]
pub struct TooLong {
    /// How many there are.
    pub size: u64,
}

/// How many zeros lead from a place to the next multiple of a boundary.
fn padding(boundary: u32, place: u64) -> u64
    requires { 0 < boundary }
    ensures value { result ≡ padding boundary place }
    ensures low { result < boundary }
{
    let boundary = u64::from(boundary);
    (boundary - place % boundary) % boundary
}

/// Adds zeros and a part. `NoMemory` changes nothing.
fn extend(bytes: &mut Vec<u8>, zeros: usize, more: &[u8]) -> Result<(), NoMemory>
    requires { zeros < 2 ^ 32 }
    ensures ok { OnOk result (bytes.new.items ≡ bytes.old.items ++ (replicate zeros 0 ++ more.now)) }
    ensures err { OnErr result (bytes.new.items ≡ bytes.old.items) }
{
    let size = bytes.len();
    bytes.resize(size + zeros, 0)?;
    if bytes.extend_from_slice(more).is_err() {
        bytes.truncate(size);
        return Err(NoMemory);
    }
    Ok(())
}

impl Parts {
    /// No parts yet. The first byte is to stand at place `start`, and at most `most` bytes are kept. Takes no memory.
    pub fn new(alloc: Global, start: u64, most: u64) -> Parts
        ensures { result ≡ laid start most [] }
    {
        Parts {
            start,
            most,
            size: 0,
            bytes: Vec::new(alloc),
        }
    }

    /// How many bytes there are, kept or not.
    pub fn size(&self) -> u64
        ensures { result ≡ self.now.size }
    {
        self.size
    }

    /// Lays a part at the next multiple of `boundary`, with zeros before it, and gives its place. `NoMemory` changes nothing,
    /// and comes too where a place would pass 2^64 - 1.
    pub fn push(&mut self, boundary: u32, bytes: &[u8]) -> Result<u64, NoMemory>
        requires { 0 < boundary }
        ensures ok { OnOk result (self.new ≡ with_part self.old (laid_part boundary bytes.now)) }
        ensures place { IfOk result (λ place. place ≡ next_multiple_of (self.old.start + self.old.size) boundary) }
        ensures err { OnErr result (self.new ≡ self.old) }
    {
        let behind = self.start.checked_add(self.size).ok_or(NoMemory)?;
        let zeros = padding(boundary, behind);
        let place = behind.checked_add(zeros).ok_or(NoMemory)?;
        let end = place.checked_add(bytes.len() as u64).ok_or(NoMemory)?;
        let size = end - self.start;
        if size <= self.most {
            extend(&mut self.bytes, zeros as usize, bytes)?;
        } else {
            self.bytes = Vec::new(*self.bytes.allocator());
        }
        self.size = size;
        Ok(place)
    }

    /// Adds zeros up to the next multiple of `boundary`, and gives the place behind them. `NoMemory` changes nothing.
    pub fn fill(&mut self, boundary: u32) -> Result<u64, NoMemory>
        requires { 0 < boundary }
        ensures ok { OnOk result (self.new ≡ with_part self.old (laid_part boundary [])) }
        ensures place { IfOk result (λ place. place ≡ next_multiple_of (self.old.start + self.old.size) boundary) }
        ensures err { OnErr result (self.new ≡ self.old) }
    {
        self.push(boundary, &[])
    }

    /// The bytes, or how many there are, where they are more than may be kept. Takes no memory.
    pub fn into_bytes(self) -> Result<Bytes, TooLong>
        ensures { HandsOut self result }
    {
        if self.size > self.most {
            return Err(TooLong { size: self.size });
        }
        Ok(List::from_vec(self.bytes))
    }
}
