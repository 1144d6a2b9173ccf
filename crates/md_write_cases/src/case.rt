use crate::fit::can_be_written;
use crate::row_words::GivenRows;
use cil_base::NoMemory;
use md_write::tables_stream;
use std::alloc::Global;

/// The bytes in hex, or how many they are and their digest.
fn shown(alloc: Global, kind: &str, bytes: &[u8]) -> Result<Option<String>, NoMemory> {
    match kind {
        "hex" => Ok(Some(hex::encode(alloc, bytes)?)),
        "digest" => {
            let mut sum = 0xcbf2_9ce4_8422_2325_u64;
            for byte in bytes {
                sum = (sum ^ u64::from(*byte)).wrapping_mul(0x0000_0100_0000_01b3);
            }
            Ok(Some(format!(in alloc; "{} {sum:016x}", bytes.len())?))
        }
        _ => Ok(None),
    }
}

/// The stream of these rows as it is shown.
fn written(
    alloc: Global,
    kind: &str,
    sizes: u8,
    given: &GivenRows,
) -> Result<Option<String>, NoMemory> {
    if given.is_beyond || !can_be_written(sizes, given.tables.as_slice()) {
        return Ok(Some(String::from_str(alloc, "no rows")?));
    }
    let stream = tables_stream(alloc, sizes, given.tables.as_slice())?;
    shown(alloc, kind, stream.as_slice())
}

/// The answer to a case; none where the line is no case.
pub(crate) fn answer(alloc: Global, line: &str) -> Result<Option<String>, NoMemory> {
    let mut words = line.split_whitespace();
    let (Some(kind), Some(sizes)) = (words.next(), words.next()) else {
        return Ok(None);
    };
    let Ok(sizes) = sizes.parse::<u8>() else {
        return Ok(None);
    };
    let mut given = GivenRows::new(alloc)?;
    for word in words {
        if !given.add_word(alloc, word)? {
            return Ok(None);
        }
    }
    written(alloc, kind, sizes, &given)
}
