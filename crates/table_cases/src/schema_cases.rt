use crate::words::{number, word};
use cil_base::Token;
use md_schema::{
    ColumnKind, Counts, Link, column_at, columns, decode_coded, decode_reference, encode_coded,
    has_link, is_cell, is_root, link_column, link_kind, links, may_name, names, owner,
    start_column, table, table_holder, table_name, tables, tag_bits, width,
};
use std::alloc::{AllocError, Global};

/// The byte at this place of a line, 255 where the number is larger.
fn byte(line: &str, place: usize) -> u8 {
    u8::try_from(number(line, place)).unwrap_or(0xff)
}

/// What the column at two places of a line holds. The table 255 stands for an index into the second number's table.
fn kind(line: &str) -> Option<ColumnKind> {
    let column = byte(line, 2);
    match byte(line, 1) {
        0xff => Some(ColumnKind::Index(column)),
        table => Some(column_at(table, column)?.kind),
    }
}

/// The answer to a case of the schema.
pub(crate) fn answer(alloc: Global, line: &str) -> Result<Option<String>, AllocError> {
    let answer = match word(line, 0) {
        "numbers" => format!(in alloc; "{:?}", table::numbers())?,
        "table" => described(alloc, byte(line, 1))?,
        "owner" => owned(alloc, byte(line, 1))?,
        "start" => format!(in alloc; "{:?}", start_column(byte(line, 1), byte(line, 2)))?,
        "link" => link(alloc, number(line, 1))?,
        "links" => linked(alloc, byte(line, 1))?,
        _ => return kind_answer(alloc, line),
    };
    Ok(Some(answer))
}

/// The answer to a case of one column, which the second word and the third name.
fn kind_answer(alloc: Global, line: &str) -> Result<Option<String>, AllocError> {
    if word(line, 0) != "column" {
        return Ok(None);
    }
    let Some(kind) = kind(line) else {
        return Ok(Some(String::from_str(alloc, "no column")?));
    };
    let answer = match word(line, 3) {
        "tags" => tags(alloc, kind)?,
        "decode" => decoded(alloc, kind, number(line, 4))?,
        "encode" => encoded(alloc, kind, number(line, 4))?,
        "names" => named(alloc, kind, number(line, 4), number(line, 5))?,
        _ => wide(alloc, kind, line)?,
    };
    Ok(Some(answer))
}

/// A table: its name, where its rows are listed, and its columns. A `*` stands before a cell.
fn described(alloc: Global, table: u8) -> Result<String, AllocError> {
    let Some(columns) = columns(table) else {
        return String::from_str(alloc, "none");
    };
    let name = table_name(table);
    let holder = table_holder(table);
    let mut text = format!(in alloc; "{name:?} {holder:?}")?;
    for column in columns {
        let mark = if is_cell(column.kind) { "*" } else { "" };
        let name = column.name;
        let kind = column.kind;
        write!(text, " {mark}{name}:{kind:?}")?;
    }
    Ok(text)
}

fn owned(alloc: Global, table: u8) -> Result<String, AllocError> {
    let owner = owner(table);
    let root = is_root(table);
    format!(in alloc; "{owner:?} {root}")
}

fn link(alloc: Global, place: u32) -> Result<String, AllocError> {
    let Some(link) = links().get(place as usize) else {
        return String::from_str(alloc, "none");
    };
    let column = link_column(*link);
    let name = column.name;
    let table = column.table;
    let place = column.column;
    let kind = link_kind(*link);
    format!(in alloc; "{link:?} {name} {table} {place} {kind:?}")
}

/// The links that rows of a table have.
fn linked(alloc: Global, table: u8) -> Result<String, AllocError> {
    let mut text = String::from_str(alloc, "links")?;
    for link in links() {
        if has_link(table, *link) {
            write!(text, " {link:?}")?;
        }
    }
    Ok(text)
}

fn tags(alloc: Global, kind: ColumnKind) -> Result<String, AllocError> {
    let ColumnKind::Coded(kind) = kind else {
        return String::from_str(alloc, "not coded");
    };
    let bits = tag_bits(kind);
    let tables = tables(kind);
    format!(in alloc; "{kind:?} {bits} {tables:?}")
}

fn decoded(alloc: Global, kind: ColumnKind, value: u32) -> Result<String, AllocError> {
    if let ColumnKind::Coded(kind) = kind {
        let coded = decode_coded(kind, value);
        return format!(in alloc; "{coded:?}");
    }
    let coded = decode_reference(kind, value);
    format!(in alloc; "{coded:?}")
}

fn encoded(alloc: Global, kind: ColumnKind, token: u32) -> Result<String, AllocError> {
    let ColumnKind::Coded(kind) = kind else {
        return String::from_str(alloc, "not coded");
    };
    let value = encode_coded(kind, Token::from_number(token));
    format!(in alloc; "{value:?}")
}

fn named(alloc: Global, kind: ColumnKind, value: u32, token: u32) -> Result<String, AllocError> {
    let token = Token::from_number(token);
    let may = may_name(kind, token.table);
    let is = names(kind, value, token);
    format!(in alloc; "{may} {is}")
}

/// The width where one table has so many rows, by the heap sizes.
fn wide(alloc: Global, kind: ColumnKind, line: &str) -> Result<String, AllocError> {
    let mut rows = [0; 64];
    let table = byte(line, 4);
    if table < 64 {
        rows[table as usize] = number(line, 5);
    }
    let counts = Counts {
        rows,
        heap_sizes: byte(line, 6),
    };
    let width = width(kind, &counts);
    format!(in alloc; "{width}")
}
