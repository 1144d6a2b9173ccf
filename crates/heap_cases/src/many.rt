use crate::content::put_text;
use cil_base::NoMemory;
use md_heaps::HeapBuilder;
use std::alloc::Global;

/// What was answered for texts that were put in one after the other.
#[derive(Drop)]
struct Tally {
    /// How many were new: each stands behind all others.
    distinct: u64,
    last: u64,
    sum: u64,
}

impl Tally {
    fn count(&mut self, index: u64) {
        if index > self.last {
            self.distinct = self.distinct.saturating_add(1);
            self.last = index;
        }
        self.sum = self.sum.saturating_add(index);
    }
}

/// Puts so many texts in, `t` and a number below `distinct`.
fn put_many(
    alloc: Global,
    heaps: &mut HeapBuilder,
    count: u32,
    distinct: u32,
) -> Result<Tally, NoMemory> {
    let mut tally = Tally {
        distinct: 0,
        last: 0,
        sum: 0,
    };
    for number in 0..count {
        let number = number.checked_rem(distinct).unwrap_or(0);
        let text = format!(in alloc; "t{number}")?;
        if let Some(index) = put_text(heaps, text.as_bytes())? {
            tally.count(index);
        }
    }
    Ok(tally)
}

/// How many texts were new, the size of their heap, and the sum of the indexes; none where the two counts are no numbers.
pub fn many(alloc: Global, counts: &str) -> Result<Option<String>, NoMemory> {
    let (count, distinct) = counts.split_once(' ').unwrap_or((counts, ""));
    let (Ok(count), Ok(distinct)) = (count.parse::<u32>(), distinct.parse::<u32>()) else {
        return Ok(None);
    };
    let mut heaps = HeapBuilder::new(alloc)?;
    let tally = put_many(alloc, &mut heaps, count, distinct)?;
    let heaps = heaps.finish()?;
    let size = heaps.strings.len();
    Ok(Some(format!(in alloc; "{} {size} {}", tally.distinct, tally.sum)?))
}
