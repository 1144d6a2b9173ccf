//! Sections as they are written: one, with all handlers (ECMA-335 II.25.4.5 and II.25.4.6).

ghost use Rattle.std.specs.Prelude.{◌≡◌, ◌≤◌, ◌<◌, ◌+◌, ◌-◌, ◌^◌, ◌++◌, ℕ, true, false, map, flat_map, replicate};
ghost use Rattle.std.specs.Prelude.{length, OnOk, IfOk};
ghost use Rattle.std.specs.List.{AllByRecursion, list_all};
ghost use Rattle.il_code.specs.SectionBytes.{clause_bytes, clause_of, fits_small as fits_small_fields, kind_flags};
ghost use Rattle.il_code.specs.SectionBytes.{kind_last, needs_fat as needs_fat_form, section_bytes, section_number};
ghost use Rattle.il_code.specs.CodePlaces.{instr_place};
ghost use Rattle.il_write.specs.inner.Ranges.{HandlerFits, KindFits};
ghost use Rattle.il_code.specs.Sections.{aligned};

use crate::places::place_at;
use crate::put::{put, token_number};
use cil_base::{Bytes, List, NoMemory};
use il_code::format::{
    CLAUSE_EXCEPTION, CLAUSE_FAULT, CLAUSE_FILTER, CLAUSE_FINALLY, SECT_EH_TABLE, SECT_FAT_FORMAT,
    SECT_LEN, SMALL_COUNT,
};
use il_code::{Clause, Handler, HandlerKind, clause_len};
use std::alloc::Global;

/// The flags of a handler's kind.
fn flags(kind: HandlerKind) -> u32
    ensures { result ≡ kind_flags kind }
{
    match kind {
        HandlerKind::Typed(_) => CLAUSE_EXCEPTION,
        HandlerKind::Filter(_) => CLAUSE_FILTER,
        HandlerKind::Finally => CLAUSE_FINALLY,
        HandlerKind::Fault => CLAUSE_FAULT,
    }
}

/// The last field of a handler's clause.
fn last(places: &[u128], kind: HandlerKind) -> u32
    requires { (i : ℕ) → instr_place places.now i ≤ 2 ^ 24 }
    ensures value { result ≡ kind_last (instr_place places.now) kind }
    ensures fits { KindFits kind }
{
    match kind {
        HandlerKind::Typed(token) => token_number(token),
        HandlerKind::Filter(start) => place_at(places, start as usize),
        HandlerKind::Finally | HandlerKind::Fault => 0,
    }
}

/// The clause of a handler.
fn clause(places: &[u128], handler: &Handler) -> Clause
    requires { (i : ℕ) → instr_place places.now i ≤ 2 ^ 24 }
    ensures value { result ≡ clause_of (instr_place places.now) handler.now }
    ensures fits { HandlerFits handler.now }
{
    let try_offset = place_at(places, handler.try_start as usize);
    let try_end = place_at(places, handler.try_end as usize);
    let offset = place_at(places, handler.start as usize);
    let end = place_at(places, handler.end as usize);
    Clause {
        flags: flags(handler.kind),
        try_offset,
        try_len: try_end.saturating_sub(try_offset),
        offset,
        len: end.saturating_sub(offset),
        last: last(places, handler.kind),
    }
}

/// The clauses of handlers.
fn clauses(alloc: Global, places: &[u128], handlers: &[Handler]) -> Result<List<Clause>, NoMemory>
    requires { (i : ℕ) → instr_place places.now i ≤ 2 ^ 24 }
    ensures value { IfOk result (λ all. all ≡ map (clause_of (instr_place places.now)) handlers.now) }
    ensures fits { IfOk result (λ _. AllByRecursion HandlerFits handlers.now) }
{
    let mut all = List::new(alloc);
    for handler in handlers {
        all.push(clause(places, handler))?;
    }
    Ok(all)
}

/// Whether a clause fits the fields of a small section.
fn fits_small(clause: &Clause) -> bool
    ensures { result ≡ fits_small_fields clause.now }
{
    clause.try_offset < 0x1_0000
        && clause.try_len < 0x100
        && clause.offset < 0x1_0000
        && clause.len < 0x100
}

/// Whether all clauses do.
fn all_fit(clauses: &[Clause]) -> bool
    ensures { result ≡ list_all fits_small_fields clauses.now }
{
    clauses.iter().all(|clause| fits_small(clause))
}

/// Whether clauses need a fat section.
fn needs_fat(clauses: &[Clause]) -> bool
    ensures { result ≡ needs_fat_form clauses.now }
{
    if clauses.len() <= SMALL_COUNT {
        !all_fit(clauses)
    } else {
        true
    }
}

/// Writes a clause of 12 bytes.
#[tactic(auto, unfolding(il_code::specs::SectionBytes::clause_bytes))]
fn write_small(out: &mut Bytes, clause: &Clause) -> Result<(), NoMemory>
    ensures ok { OnOk result (out.new ≡ out.old ++ clause_bytes false clause.now) }
{
    put(out, 2, clause.flags as u64)?;
    put(out, 2, clause.try_offset as u64)?;
    put(out, 1, clause.try_len as u64)?;
    put(out, 2, clause.offset as u64)?;
    put(out, 1, clause.len as u64)?;
    put(out, 4, clause.last as u64)?;
    Ok(())
}

/// Writes a clause of 24 bytes.
#[tactic(auto, unfolding(il_code::specs::SectionBytes::clause_bytes))]
fn write_fat(out: &mut Bytes, clause: &Clause) -> Result<(), NoMemory>
    ensures ok { OnOk result (out.new ≡ out.old ++ clause_bytes true clause.now) }
{
    put(out, 4, clause.flags as u64)?;
    put(out, 4, clause.try_offset as u64)?;
    put(out, 4, clause.try_len as u64)?;
    put(out, 4, clause.offset as u64)?;
    put(out, 4, clause.len as u64)?;
    put(out, 4, clause.last as u64)?;
    Ok(())
}

/// Writes a clause.
fn write_clause(out: &mut Bytes, fat: bool, clause: &Clause) -> Result<(), NoMemory>
    ensures ok { OnOk result (out.new ≡ out.old ++ clause_bytes fat clause.now) }
{
    if fat {
        write_fat(out, clause)
    } else {
        write_small(out, clause)
    }
}

/// Writes clauses one after the other.
fn write_clauses(out: &mut Bytes, fat: bool, clauses: &[Clause]) -> Result<(), NoMemory>
    ensures ok { OnOk result (out.new ≡ out.old ++ flat_map (clause_bytes fat) clauses.now) }
{
    for clause in clauses {
        write_clause(out, fat, clause)?;
    }
    Ok(())
}

/// Writes as many zeros as the count.
fn write_zeros(out: &mut Bytes, count: usize) -> Result<(), NoMemory>
    ensures ok { OnOk result (out.new ≡ out.old ++ replicate count 0) }
{
    for _i in 0..count {
        out.push(0)?;
    }
    Ok(())
}

/// The four bytes of a section's header as a number.
fn head(fat: bool, count: usize) -> u64
    requires { count < 2 ^ 32 }
    ensures { result ≡ section_number fat count }
{
    let form = if fat { SECT_FAT_FORMAT } else { 0 };
    let kind = (SECT_EH_TABLE + form) as u64;
    kind + 0x100 * (SECT_LEN as u64 + count as u64 * clause_len(fat) as u64)
}

/// How many bytes are missing to the next multiple of four.
#[tactic(auto, unfolding(il_code::specs::Sections::aligned))]
fn padding(place: usize) -> usize
    ensures { result ≡ aligned place - place }
{
    (4 - place % 4) % 4
}

/// Writes a section with the clauses of handlers behind what is written so far.
#[tactic(auto, unfolding(il_code::specs::SectionBytes::section_bytes))]
pub(crate) fn write_section(
    alloc: Global,
    out: &mut Bytes,
    places: &[u128],
    handlers: &[Handler],
) -> Result<(), NoMemory>
    requires small { (i : ℕ) → instr_place places.now i ≤ 2 ^ 24 }
    requires few { length handlers.now < 2 ^ 32 }
    ensures ok { OnOk result (out.new ≡ out.old
        ++ section_bytes (map (clause_of (instr_place places.now)) handlers.now) (length out.old)) }
    ensures fits { OnOk result (AllByRecursion HandlerFits handlers.now) }
{
    let clauses = clauses(alloc, places, handlers)?;
    let fat = needs_fat(clauses.as_slice());
    let missing = padding(out.len());
    write_zeros(out, missing)?;
    put(out, 4, head(fat, clauses.len()))?;
    write_clauses(out, fat, clauses.as_slice())
}
