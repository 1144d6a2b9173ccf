ghost use Rattle.std.specs.Prelude.{◌≡◌};
ghost use Rattle.std.specs.Option.{option_copied};
ghost use Rattle.cil_base.specs.Heaps.{first_bytes};

/// The first so many bytes. None where there are fewer.
pub(crate) fn first_bytes(bytes: &[u8], size: usize) -> Option<&[u8]>
    ensures { option_copied result ≡ first_bytes size bytes.now }
{
    bytes.get(..size)
}
