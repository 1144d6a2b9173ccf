//! Where the instructions of a code stand, by their numbers, and their numbers by the places.

ghost use Rattle.std.specs.Prelude.{◌≡◌, ◌+◌, ◌<◌, ◌≤◌, ◌^◌, IfOk, length};
ghost use Rattle.il_code.specs.Numbering.{number_in, places};
ghost use Rattle.il_code.specs.CodePlaces.{CodePlaces, Rising, code_places};

use crate::instr::Instr;
use cil_base::{List, NoMemory};
use std::alloc::Global;
use std::marker::Model;

/// Where each instruction of a code stands and where the last one ends, in bytes from the code's first, and how many
/// instructions there are. Each stands after those before it (ECMA-335 III.1.7.2).
#[derive(Drop)]
pub struct Places {
    starts: List<u128>,
    count: usize,
}

impl Model for Places {
    ghost use Rattle.std.specs.Prelude.{◌≡◌, ◌+◌, ◌<◌, ◌^◌, length};
    ghost use Rattle.il_code.specs.CodePlaces.{CodePlaces, Rising};

    ghost Value = { CodePlaces };

    ghost view = { λ p. record { starts = p.starts; count = p.count } };

    ghost invariant = { λ p. Rising p.starts × (length p.starts ≡ p.count + 1) × (p.count < 2 ^ 32) };
}

impl Places {
    /// The places in order: that of each instruction, and the end of the last.
    pub fn as_slice(&self) -> &[u128]
        ensures { result.now ≡ self.now.starts }
    {
        self.starts.as_slice()
    }

    /// How many instructions there are.
    pub fn count(&self) -> usize
        ensures value { result ≡ self.now.count }
        ensures small { result < 2 ^ 32 }
    {
        self.count
    }
}

/// The places of the instructions of a code. What their targets are does not matter.
pub fn places_of(alloc: Global, code: &[Instr]) -> Result<Places, NoMemory>
    requires { length code.now < 2 ^ 32 }
    ensures { IfOk result (λ found. found ≡ code_places code.now) }
{
    let starts = starts_of(alloc, code)?;
    let count = code.len();
    Ok(Places { starts, count })
}

/// Where each instruction stands, and where the last one ends.
fn starts_of(alloc: Global, code: &[Instr]) -> Result<List<u128>, NoMemory>
    requires { length code.now < 2 ^ 32 }
    ensures value { IfOk result (λ all. all ≡ places code.now) }
    ensures rising { IfOk result (λ all. Rising all) }
    ensures len { IfOk result (λ all. length all ≡ length code.now + 1) }
{
    let mut all = List::new(alloc);
    let mut place = 0;
    all.push(place)?;
    for instr in code {
        place += instr.size();
        all.push(place)?;
    }
    Ok(all)
}

/// The number of the instruction at a place, or the number of all at the end of the last. None where the place is
/// inside an instruction or past the end.
pub fn number_of(places: &Places, place: u64) -> Option<u32>
    ensures { result ≡ number_in places.now.starts place }
{
    number_among(places.starts.as_slice(), place)
}

/// The number of a place among rising places.
fn number_among(starts: &[u128], place: u64) -> Option<u32>
    requires size { length starts.now ≤ 2 ^ 32 }
    requires rising { Rising starts.now }
    ensures { result ≡ number_in starts.now place }
{
    let place = place as u128;
    let mut low = 0;
    let mut high = starts.len();
    while low < high {
        let middle = low + (high - low) / 2;
        let found = starts[middle];
        if found == place {
            return Some(middle as u32);
        }
        if found < place {
            low = middle + 1;
        } else {
            high = middle;
        }
    }
    None
}
