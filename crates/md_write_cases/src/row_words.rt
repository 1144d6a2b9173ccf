use cil_base::{List, NoMemory};
use std::alloc::Global;

/// The rows of 64 tables as they are given.
#[derive(Drop)]
pub(crate) struct GivenRows {
    pub tables: Vec<List<List<u32>>>,
    /// Whether rows of a table past these were given.
    pub is_beyond: bool,
}

/// The numbers of a row; none where a part is no number.
fn numbers(alloc: Global, text: &str) -> Result<Option<List<u32>>, NoMemory> {
    let mut numbers = List::new(alloc);
    for part in text.split(',') {
        let Ok(number) = part.parse::<u32>() else {
            return Ok(None);
        };
        numbers.push(number)?;
    }
    Ok(Some(numbers))
}

impl GivenRows {
    /// No rows yet.
    pub(crate) fn new(alloc: Global) -> Result<GivenRows, NoMemory> {
        let mut tables = Vec::new(alloc);
        for _ in 0..64 {
            tables.push(List::new(alloc))?;
        }
        Ok(GivenRows {
            tables,
            is_beyond: false,
        })
    }

    /// Adds so many equal rows.
    fn add(&mut self, table: u8, count: u32, numbers: &List<u32>) -> Result<(), NoMemory> {
        match self.tables.get_mut(table as usize) {
            Some(rows) => {
                for _ in 0..count {
                    rows.push(numbers.copy()?)?;
                }
            }
            None => self.is_beyond = true,
        }
        Ok(())
    }

    /// Adds the rows of a word, and whether it is one.
    pub(crate) fn add_word(&mut self, alloc: Global, word: &str) -> Result<bool, NoMemory> {
        let Some((front, text)) = word.split_once(':') else {
            return Ok(false);
        };
        let (table, count) = front.split_once('*').unwrap_or((front, "1"));
        let (Ok(table), Ok(count)) = (u8::from_str_radix(table, 16), count.parse::<u32>()) else {
            return Ok(false);
        };
        let Some(numbers) = numbers(alloc, text)? else {
            return Ok(false);
        };
        self.add(table, count, &numbers)?;
        Ok(true)
    }
}
