use cil_base::NoMemory;

/// What is wrong with a file, in the order in which it is looked for: the first whose condition holds is answered
/// (ECMA-335 II.24.2.1, II.24.2.2, II.25).
#[derive(Clone, Copy, Debug, PartialEq, Eq)]
pub enum PeRefusal {
    /// The file passes 2^26 bytes.
    TooLarge,
    /// The first two bytes are not `MZ`.
    NoDos,
    /// The number at place 3C, or the PE signature with 20 further bytes at the place that it names, is not there.
    NoPe,
    /// The magic of the optional header is this one, and neither 0x10b (PE32) nor 0x20b (PE32+). It is 0 where no two bytes
    /// stand there.
    BadMagic(u64),
    /// The 96 bytes of a PE32 optional header, or the 112 of a PE32+ one, pass the file, or the section headers do.
    BadSections,
    /// There are fewer than 15 data directories, number 14 passes the optional header or the file, or it names no RVA.
    NoCli,
    /// Fewer than 72 bytes stand at the RVA of the CLI header.
    BadCli,
    /// The metadata is not wholly there, does not begin with `BSJB`, or ends within its root.
    BadRoot,
    /// A stream header passes the metadata, its name has no zero byte within 32 bytes, or its stream passes the metadata.
    BadStreams,
    /// No stream is named `#~`.
    NoTables,
}

/// Why `Pe::open` gave no image.
#[derive(Debug, PartialEq, Eq, Drop)]
pub enum PeFail {
    /// The file is refused.
    Refused(PeRefusal),
    /// Memory was wanted and not found.
    NoMemory,
}

impl From<NoMemory> for PeFail {
    ghost use Rattle.std.specs.Prelude.{◌≡◌};
    ghost use Rattle.pe_image.specs.declared.refusal.PeFail.TheVariants as fails;

    ghost from_gives = { λ _ e. e ≡ fails.NoMemory };

    fn from(_error: NoMemory) -> PeFail {
        PeFail::NoMemory
    }
}

impl From<PeRefusal> for PeFail {
    ghost use Rattle.std.specs.Prelude.{◌≡◌};
    ghost use Rattle.pe_image.specs.declared.refusal.PeFail.TheVariants as fails;

    ghost from_gives = { λ refusal e. e ≡ fails.Refused refusal };

    fn from(refusal: PeRefusal) -> PeFail {
        PeFail::Refused(refusal)
    }
}
