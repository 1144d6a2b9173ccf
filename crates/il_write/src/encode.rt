ghost use Rattle.std.specs.Prelude.{◌≡◌, ◌<◌, ◌≤◌, ◌-◌, ◌^◌, ℕ, Some, List as Items, length, min, slice_index, IfOk};
ghost use Rattle.il_code.specs.BodyBytes.{body_bytes, body_bytes_by};
ghost use Rattle.il_code.specs.Decoded.{body_at};
ghost use Rattle.il_code.specs.CodePlaces.{instr_place};
ghost use Rattle.il_write.specs.inner.Ranges.{BodyFits};
ghost use Rattle.il_code.specs.Refusal.{BodyAnswers, first_far, refused_by, refusal_of};
ghost use Rattle.il_code.specs.Writable.{NameTexts, Writable, texts_of};

use crate::far::far_branch;
use crate::places::{any_place, place_at};
use crate::write_code::write_code;
use crate::write_header::write_header;
use crate::write_section::write_section;
use cil_base::{Bytes, List, NoMemory};
use il_code::{Body, BodyRefusal, places_of};
use std::alloc::Global;

/// The most bytes of code that a body is written with.
const MAX_SIZE: u128 = 0x100_0000;

/// The most handlers that a body is written with.
const MAX_HANDLERS: usize = 0xffff;

/// The bytes of a body, with the tokens of its user strings, one for each text in order (ECMA-335 II.25.4). The header
/// has one byte where max stack is 8, there are no locals, no handlers and no InitLocals, and the code has fewer than
/// 64 bytes. All handlers stand in one section, a small one where there are at most 20 and each offset and length fits
/// it. What is written is read back by `decode_body` of `il_read` as this body, where the tokens name its texts. Refused
/// is a short branch to a place that is too far, and a body with more than 2^24 bytes of code or more than 65,535
/// handlers.
pub fn encode_body(alloc: Global, body: &Body, texts: &List<u32>) -> Result<Bytes, BodyRefusal>
    requires sound { Writable body.now }
    requires named { length texts.now ≡ length (texts_of body.now.code) }
    ensures bytes { IfOk result (λ bytes. bytes ≡ body_bytes body.now texts.now) }
    ensures refused { BodyAnswers result (refusal_of body.now) }
    ensures read_back { IfOk result (λ bytes. (users : Items ℕ) → NameTexts users texts.now body.now.code
        → body_at bytes users ≡ Some body.now) }
{
    let places = places_of(alloc, body.code.as_slice())?;
    if let Some(refusal) = refusal(places.as_slice(), body) {
        return Err(refusal);
    }
    let bytes = write_body(alloc, places.as_slice(), body, texts.as_slice())?;
    Ok(bytes)
}

/// A size as it is told, at most 2^64 - 1.
fn told(size: u128) -> u64
    ensures { result ≡ min size (2 ^ 64 - 1) }
{
    if size < 0x1_0000_0000_0000_0000 {
        size as u64
    } else {
        u64::MAX
    }
}

/// Why a body with these places is not written.
fn refusal(places: &[u128], body: &Body) -> Option<BodyRefusal>
    ensures { result ≡ refused_by (first_far (instr_place places.now) body.now.code)
        (instr_place places.now (length body.now.code)) (length body.now.handlers) }
{
    if let Some(number) = far_branch(places, body.code.as_slice()) {
        return Some(BodyRefusal::BranchTooFar(number));
    }
    let size = any_place(places, body.code.len());
    if MAX_SIZE < size {
        return Some(BodyRefusal::BodyTooLarge(told(size)));
    }
    if MAX_HANDLERS < body.handlers.len() {
        return Some(BodyRefusal::BodyTooLarge(body.handlers.len() as u64));
    }
    None
}

/// The bytes of a body with these places.
#[tactic(auto, unfolding(il_code::specs::BodyBytes::body_bytes_by))]
fn write_body(alloc: Global, places: &[u128], body: &Body, texts: &[u32]) -> Result<Bytes, NoMemory>
    requires { (i : ℕ) → instr_place places.now i ≤ 2 ^ 24 }
    ensures bytes { IfOk result (λ bytes. bytes ≡ body_bytes_by (instr_place places.now) body.now texts.now) }
    ensures fits { IfOk result (λ _. BodyFits body.now) }
    ensures tokens { (j : ℕ) → slice_index texts.now j < 2 ^ 32 }
{
    let mut bytes = List::new(alloc);
    write_header(&mut bytes, body, place_at(places, body.code.len()))?;
    write_code(&mut bytes, places, body.code.as_slice(), texts)?;
    if body.handlers.is_empty() {
        return Ok(bytes);
    }
    write_section(alloc, &mut bytes, places, body.handlers.as_slice())?;
    Ok(bytes)
}
