ghost use Rattle.std.specs.Prelude.{◌≡◌, ◌++◌, IfOk, OnOk};
ghost use Rattle.std.specs.List.{flat_map};
ghost use Rattle.cecil_inspect.specs.Lines.{file_reply, is_absent, linked_line, member_line, part_line, parts_lines};
ghost use Rattle.cecil_inspect.specs.Lines.{row_line, show};

use crate::line::{add_line, add_said, reply_of};
use cil_base::{Bytes, NoMemory, Token};
use md_schema::{Link, links, table};
use node_model::{Query, Reply, has_kind};
use node_read::Image;
use std::alloc::Global;

/// Adds the line of a part, where the table of the row has it.
fn add_part(alloc: Global, text: &mut Bytes, image: &Image, query: &Query) -> Result<(), NoMemory>
    ensures { OnOk result (text.new ≡ text.old ++ part_line image.now query.now) }
{
    match query.key() {
        Some(key) if has_kind(&key) => add_line(alloc, text, image, query),
        _ => Ok(()),
    }
}

/// Adds the lists of the rows of these tables that the row owns.
fn add_members(
    alloc: Global,
    text: &mut Bytes,
    image: &Image,
    token: Token,
    tables: &[u8],
) -> Result<(), NoMemory>
    ensures { OnOk result (text.new ≡ text.old ++ flat_map (member_line image.now token) tables.now) }
{
    for table in tables {
        add_part(alloc, text, image, &Query::Members(token, *table))?;
    }
    Ok(())
}

/// Adds the lists of the rows that belong to the row by these links.
fn add_links(
    alloc: Global,
    text: &mut Bytes,
    image: &Image,
    token: Token,
    links: &[Link],
) -> Result<(), NoMemory>
    ensures { OnOk result (text.new ≡ text.old ++ flat_map (linked_line image.now token) links.now) }
{
    for link in links {
        add_part(alloc, text, image, &Query::Links(token, *link))?;
    }
    Ok(())
}

/// Adds the lines of the further parts of a row.
fn add_parts(alloc: Global, text: &mut Bytes, image: &Image, token: Token) -> Result<(), NoMemory>
    ensures { OnOk result (text.new ≡ text.old ++ parts_lines image.now token) }
{
    add_part(alloc, text, image, &Query::Sig(token))?;
    add_members(alloc, text, image, token, table::numbers())?;
    add_links(alloc, text, image, token, links())?;
    add_part(alloc, text, image, &Query::Body(token))?;
    add_part(alloc, text, image, &Query::Data(token))?;
    add_part(alloc, text, image, &Query::Resource(token))
}

/// Whether a reply says that there is no such row.
fn is_absent(said: &Reply) -> bool
    ensures { result ≡ is_absent said.now }
{
    matches!(said, Reply::Absent(_))
}

/// Adds the line of a row, and tells whether there is no such row.
#[tactic(auto, unfolding(crate::specs::Lines::reply_line))]
fn add_head(alloc: Global, text: &mut Bytes, image: &Image, token: Token) -> Result<bool, NoMemory>
    ensures line { OnOk result (text.new ≡ text.old ++ row_line image.now token) }
    ensures absent { IfOk result (λ absent. absent ≡ is_absent (file_reply image.now (Query.Row token))) }
{
    let said = reply_of(alloc, image, &Query::Row(token))?;
    add_said(text, &said)?;
    Ok(is_absent(&said))
}

/// Adds all that hangs on a row: its line, and, unless it is absent, those of each further part that its table has
/// (ECMA-335 II.22).
#[tactic(auto, unfolding(crate::specs::Lines::show))]
pub(crate) fn add_show(
    alloc: Global,
    text: &mut Bytes,
    image: &Image,
    token: Token,
) -> Result<(), NoMemory>
    ensures { OnOk result (text.new ≡ text.old ++ show image.now token) }
{
    if add_head(alloc, text, image, token)? {
        return Ok(());
    }
    add_parts(alloc, text, image, token)
}
