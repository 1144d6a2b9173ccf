ghost use Rattle.std.specs.Prelude.{◌≡◌, ◌≤◌, ◌^◌, ℕ};
ghost use Rattle.il_code.specs.CodePlaces.{instr_place};

/// The place of an instruction. That of a number past the last one is 0.
pub(crate) fn any_place(places: &[u128], number: usize) -> u128
    ensures { result ≡ instr_place places.now number }
{
    if number < places.len() {
        places[number]
    } else {
        0
    }
}

/// The place of an instruction in code of at most 2^24 bytes.
pub(crate) fn place_at(places: &[u128], number: usize) -> u32
    requires { (i : ℕ) → instr_place places.now i ≤ 2 ^ 24 }
    ensures value { result ≡ instr_place places.now number }
    ensures small { result ≤ 2 ^ 24 }
{
    any_place(places, number) as u32
}
