ghost use Rattle.std.specs.Prelude.{◌≡◌, IfOk, length};
ghost use Rattle.asm_names.specs.Guid.{guid_text};

use cil_base::{Bytes, List, NoMemory};
use std::alloc::Global;
use uuid::Uuid;

/// A GUID as it is stored, in lower-case hex: 8-4-4-4-12 digits. Its first three fields have their lowest byte first in
/// the file and their highest first in the text (ECMA-335 II.24.2.5).
pub fn guid_text(alloc: Global, guid: [u8; 16]) -> Result<Bytes, NoMemory>
    ensures { IfOk result (λ text. text ≡ guid_text guid) }
{
    stored_text(alloc, &guid)
}

/// The text of a slice of sixteen bytes: of a slice, and not of an array, it is known that each item is a byte.
fn stored_text(alloc: Global, stored: &[u8]) -> Result<Bytes, NoMemory>
    requires { length stored.now ≡ 16 }
    ensures { IfOk result (λ text. text ≡ guid_text stored.now) }
{
    let mut guid = [0; 16];
    guid.copy_from_slice(stored);
    let mut buffer = [0; 36];
    let digits = Uuid::from_bytes_le(guid)
        .hyphenated()
        .encode_lower(&mut buffer);
    List::from_slice(alloc, digits.as_bytes())
}
