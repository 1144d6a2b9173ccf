ghost use Rattle.std.specs.Prelude.{◌≡◌};
ghost use Rattle.il_edit.specs.inner.Shifted.{kept_number, shifted};

/// What an edit does to the numbers of instructions.
#[derive(Clone, Copy)]
pub(crate) enum Shift {
    Stay,
    /// An instruction is put in before that number.
    PutIn(u32),
    /// That number is taken out.
    TakenOut(u32),
}

impl Shift {
    /// What a number becomes.
    pub(crate) fn number(self, number: u32) -> u64
        ensures { result ≡ shifted self number }
    {
        let number = number as u64;
        match self {
            Shift::Stay => number,
            Shift::PutIn(at) => {
                if number < at as u64 {
                    number
                } else {
                    number + 1
                }
            }
            Shift::TakenOut(at) => {
                if number <= at as u64 {
                    number
                } else {
                    number - 1
                }
            }
        }
    }

    /// The same, where it is no more than 2^32 - 1, and that otherwise.
    pub(crate) fn narrow(self, number: u32) -> u32
        ensures { result ≡ kept_number self number }
    {
        let number = self.number(number);
        if number < 0x1_0000_0000 {
            number as u32
        } else {
            0xffff_ffff
        }
    }
}
