//! Tables streams of many rows, made by a rule, so that a case of 10,000 rows is a short line.

use crate::words::{bytes, number, word};
use cil_base::Token;
use md_schema::{Link, links};
use md_tables::{LinkIndex, Tables};
use std::alloc::{AllocError, Global};

/// The digest of nothing (FNV-1a, 64 bits).
const EMPTY: u64 = 0xcbf2_9ce4_8422_2325;

/// Adds zeros.
fn add_zeros(stream: &mut Vec<u8>, count: u32) -> Result<(), AllocError> {
    for _ in 0..count {
        stream.push(0)?;
    }
    Ok(())
}

/// Adds a number of two bytes, or of four where `is_wide`, lowest byte first.
fn add_number(stream: &mut Vec<u8>, number: u32, is_wide: bool) -> Result<(), AllocError> {
    let [first, second, third, fourth] = number.to_le_bytes();
    stream.push(first)?;
    stream.push(second)?;
    if is_wide {
        stream.push(third)?;
        stream.push(fourth)?;
    }
    Ok(())
}

/// Adds the rows of a `rows HEAD COUNT BEFORE WIDTH AFTER FIRST STEP MODULUS` case: COUNT rows of zeros, but for a number of
/// WIDTH bytes behind BEFORE others, which begins with FIRST and grows by STEP, modulo MODULUS.
fn add_rows(stream: &mut Vec<u8>, line: &str) -> Result<(), AllocError> {
    let modulus = number(line, 8).max(1);
    let is_wide = number(line, 4) == 4;
    let mut held = number(line, 6);
    for _ in 0..number(line, 2) {
        add_zeros(stream, number(line, 3))?;
        add_number(stream, held % modulus, is_wide)?;
        add_zeros(stream, number(line, 5))?;
        held = (held % modulus).wrapping_add(number(line, 7));
    }
    Ok(())
}

/// The stream that a line gives: that of a `stream` case stands there in hex, that of a `rows` case is its head with the rows.
/// None where the line gives none.
pub(crate) fn stream(alloc: Global, line: &str) -> Result<Option<Vec<u8>>, AllocError> {
    match word(line, 0) {
        "stream" => Ok(Some(bytes(alloc, line, 1)?)),
        "rows" => {
            let mut stream = bytes(alloc, line, 1)?;
            add_rows(&mut stream, line)?;
            Ok(Some(stream))
        }
        _ => Ok(None),
    }
}

/// A digest that goes on by a number.
fn go_on(sum: u64, number: u64) -> u64 {
    (sum ^ number).wrapping_mul(0x0000_0100_0000_01b3)
}

/// The digest of the rows that the index gives for each row number of a table below a limit, with how many they are.
fn digest(index: &LinkIndex, link: Link, table: u32, limit: u32) -> u64 {
    let mut sum = EMPTY;
    for rid in 0..limit {
        let rids = index.linked(
            Token::from_number(table.wrapping_mul(0x100_0000).wrapping_add(rid)),
            link,
        );
        sum = go_on(sum, rids.len() as u64);
        for rid in rids {
            sum = go_on(sum, u64::from(*rid));
        }
    }
    sum
}

/// The answer to a `sweep LINK TABLE LIMIT` case: the digest of all that is linked to rows of a table by the link of a number.
pub(crate) fn sweep(alloc: Global, stream: &[u8], line: &str) -> Result<String, AllocError> {
    let Ok(tables) = Tables::open(stream) else {
        return String::from_str(alloc, "not open");
    };
    let Some(link) = links().get(number(line, 1) as usize) else {
        return String::from_str(alloc, "no link");
    };
    let Ok(index) = LinkIndex::open(alloc, &tables, stream) else {
        return String::from_str(alloc, "no memory");
    };
    let sum = digest(&index, *link, number(line, 2), number(line, 3));
    format!(in alloc; "digest {sum:016x}")
}
