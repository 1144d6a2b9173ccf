//! Handlers, read from the clauses of sections (ECMA-335 II.25.4.6).

ghost use Rattle.std.specs.Prelude.{◌≡◌, ◌+◌, ◌<◌, ◌≤◌, ◌^◌, true, false, IfOk, length};
ghost use Rattle.il_code.specs.Sections.{fields_at, handler_kind};
ghost use Rattle.il_code.specs.Numbering.{handlers_in, numbered_kind, numbered_clause};
ghost use Rattle.il_read.specs.inner.Handlers.{after_front, with_last};

use crate::fields::{u8_at, u16_at, u32_at};
use crate::numbering::target_of;
use cil_base::{List, NoMemory, Token};
use il_code::format::{CLAUSE_EXCEPTION, CLAUSE_FAULT, CLAUSE_FILTER, CLAUSE_FINALLY};
use il_code::{Clause, Handler, HandlerKind, Places, Section, clause_len, number_of};

/// The fields of the clause of 12 bytes at a place.
#[tactic(auto, unfolding(il_code::specs::Sections::fields_at))]
fn read_small(bytes: &[u8], place: usize) -> Option<Clause>
    requires { place < 2 ^ 63 + 2 ^ 40 }
    ensures { result ≡ fields_at false bytes.now place }
{
    let flags = u16_at(bytes, place)? as u32;
    let try_offset = u16_at(bytes, place + 2)? as u32;
    let try_len = u8_at(bytes, place + 4)? as u32;
    let offset = u16_at(bytes, place + 5)? as u32;
    let len = u8_at(bytes, place + 7)? as u32;
    let last = u32_at(bytes, place + 8)?;
    Some(Clause {
        flags,
        try_offset,
        try_len,
        offset,
        len,
        last,
    })
}

/// The fields of the clause of 24 bytes at a place.
#[tactic(auto, unfolding(il_code::specs::Sections::fields_at))]
fn read_fat(bytes: &[u8], place: usize) -> Option<Clause>
    requires { place < 2 ^ 63 + 2 ^ 40 }
    ensures { result ≡ fields_at true bytes.now place }
{
    let flags = u32_at(bytes, place)?;
    let try_offset = u32_at(bytes, place + 4)?;
    let try_len = u32_at(bytes, place + 8)?;
    let offset = u32_at(bytes, place + 12)?;
    let len = u32_at(bytes, place + 16)?;
    let last = u32_at(bytes, place + 20)?;
    Some(Clause {
        flags,
        try_offset,
        try_len,
        offset,
        len,
        last,
    })
}

/// The fields of the clause at a place.
fn read_fields(bytes: &[u8], place: usize, fat: bool) -> Option<Clause>
    requires { place < 2 ^ 63 + 2 ^ 40 }
    ensures { result ≡ fields_at fat bytes.now place }
{
    if fat {
        read_fat(bytes, place)
    } else {
        read_small(bytes, place)
    }
}

/// The kind of a handler, whose filter is a place.
#[tactic(auto, unfolding(il_code::specs::Sections::handler_kind))]
fn read_kind(flags: u32, last: u32) -> Option<HandlerKind>
    ensures { result ≡ handler_kind flags last }
{
    match flags {
        CLAUSE_EXCEPTION => Some(HandlerKind::Typed(Token::from_number(last))),
        CLAUSE_FILTER => Some(HandlerKind::Filter(last)),
        CLAUSE_FINALLY => Some(HandlerKind::Finally),
        CLAUSE_FAULT => Some(HandlerKind::Fault),
        _ => None,
    }
}

/// The kind of a handler with a number in place of its filter's place.
#[tactic(auto, unfolding(il_code::specs::Numbering::numbered_kind))]
fn number_kind(places: &Places, kind: HandlerKind) -> Option<HandlerKind>
    ensures { result ≡ numbered_kind places.now.starts places.now.count kind }
{
    match kind {
        HandlerKind::Filter(place) => {
            let start = target_of(places, place as u64)?;
            Some(HandlerKind::Filter(start))
        }
        other => Some(other),
    }
}

/// The handler of the clause at a place. None where a bound is no place of an instruction.
#[tactic(auto, unfolding(il_code::specs::Numbering::numbered_clause, il_code::specs::Numbering::numbered_handler, il_code::specs::Sections::clause_at, il_code::specs::Sections::handler_of))]
fn read_clause(places: &Places, bytes: &[u8], place: usize, fat: bool) -> Option<Handler>
    requires place { place < 2 ^ 63 + 2 ^ 40 }
    ensures { result ≡ numbered_clause places.now.starts places.now.count fat bytes.now place }
{
    let clause = read_fields(bytes, place, fat)?;
    let kind = read_kind(clause.flags, clause.last)?;
    let kind = number_kind(places, kind)?;
    let try_start = number_of(places, clause.try_offset as u64)?;
    let try_end = number_of(places, clause.try_offset as u64 + clause.try_len as u64)?;
    let start = number_of(places, clause.offset as u64)?;
    let end = number_of(places, clause.offset as u64 + clause.len as u64)?;
    Some(Handler {
        kind,
        try_start,
        try_end,
        start,
        end,
    })
}

/// The handlers so far, with that of the clause at a place. None where it is not there.
fn add_clause(
    handlers: List<Handler>,
    places: &Places,
    bytes: &[u8],
    place: usize,
    fat: bool,
) -> Result<Option<List<Handler>>, NoMemory>
    requires place { place < 2 ^ 63 + 2 ^ 40 }
    ensures { IfOk result (λ all. all
        ≡ with_last handlers (numbered_clause places.now.starts places.now.count fat bytes.now place)) }
{
    let Some(handler) = read_clause(places, bytes, place, fat) else {
        return Ok(None);
    };
    let mut all = handlers;
    all.extend(&[handler])?;
    Ok(Some(all))
}

/// The handlers so far, with those of a section whose clauses begin at a place. None where one of its clauses is not
/// there.
#[tactic(auto, unfolding(il_code::specs::Numbering::handlers_in))]
pub(crate) fn read_clauses(
    handlers: List<Handler>,
    places: &Places,
    bytes: &[u8],
    section: Section,
    place: usize,
) -> Result<Option<List<Handler>>, NoMemory>
    requires place { place < 2 ^ 63 + 2 ^ 33 }
    requires section { section.count < 2 ^ 24 }
    ensures { IfOk result (λ all. all
        ≡ after_front handlers (handlers_in places.now.starts places.now.count bytes.now section place)) }
{
    let mut all = handlers;
    let len = clause_len(section.fat);
    for i in 0..section.count as usize {
        let Some(more) = add_clause(all, places, bytes, place + len * i, section.fat)? else {
            return Ok(None);
        };
        all = more;
    }
    Ok(Some(all))
}
