ghost use Rattle.std.specs.Prelude.{◌≡◌, ◌≤◌, IfOk, length};
ghost use Rattle.il_code.specs.Numbering.{sections_in};

use crate::clause::read_clauses;
use crate::section::{align, read_section};
use cil_base::{List, NoMemory};
use il_code::format::SECT_LEN;
use il_code::{Handler, Places, clause_len};
use std::alloc::Global;

/// The handlers of the sections behind a place. None where those are not whole.
pub(crate) fn read_sections(
    alloc: Global,
    places: &Places,
    bytes: &[u8],
    place: usize,
) -> Result<Option<List<Handler>>, NoMemory>
    requires place { place ≤ length bytes.now }
    ensures { IfOk result (λ handlers. handlers
        ≡ sections_in places.now.starts places.now.count bytes.now (length bytes.now) place) }
{
    let mut handlers = List::new(alloc);
    let mut place = place;
    // each section takes four bytes or more
    for _turn in 0..bytes.len() {
        let start = align(place);
        let Some(section) = read_section(bytes, start) else {
            return Ok(None);
        };
        let Some(more) = read_clauses(handlers, places, bytes, section, start + SECT_LEN)? else {
            return Ok(None);
        };
        if !section.further {
            return Ok(Some(more));
        }
        handlers = more;
        place = start + SECT_LEN + section.count as usize * clause_len(section.fat);
    }
    Ok(None)
}
