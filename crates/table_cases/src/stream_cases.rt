use crate::many_rows::sweep;
use crate::words::{number, word};
use cil_base::Token;
use md_schema::{column_at, link_column, links, start_column};
use md_tables::{LinkIndex, Tables};
use std::alloc::{AllocError, Global};

/// The answer to a case of the tables stream that stands.
pub(crate) fn answer(alloc: Global, line: &str, stream: &[u8]) -> Result<String, AllocError> {
    let tables = match Tables::open(stream) {
        Ok(tables) => tables,
        Err(refusal) => return format!(in alloc; "{refusal:?}"),
    };
    match word(line, 0) {
        "stream" | "rows" => counted(alloc, &tables),
        "cells" => cells(alloc, stream, number(line, 1)),
        "range" => range(alloc, stream, number(line, 1), number(line, 2)),
        "linked" => linked(alloc, stream, number(line, 1), number(line, 2)),
        "sweep" => sweep(alloc, stream, line),
        "indexed" => indexed(alloc, stream, number(line, 1), number(line, 2)),
        _ => String::from_str(alloc, "no case"),
    }
}

/// The rows of each table that has rows.
fn counted(alloc: Global, tables: &Tables) -> Result<String, AllocError> {
    let mut text = String::from_str(alloc, "rows")?;
    for table in 0..=255 {
        let rows = tables.rows(table);
        if rows != 0 {
            write!(text, " {table:02x}:{rows}")?;
        }
    }
    Ok(text)
}

/// The numbers of all columns of all rows of a table.
fn cells(alloc: Global, stream: &[u8], table: u32) -> Result<String, AllocError> {
    let Ok(tables) = Tables::open(stream) else {
        return String::from_str(alloc, "not open");
    };
    let Ok(table) = u8::try_from(table) else {
        return String::from_str(alloc, "no table");
    };
    let mut text = String::from_str(alloc, "cells")?;
    for before in 0..tables.rows(table) {
        for column in 0..16 {
            if column_at(table, column).is_some() {
                let cell = tables.cell(stream, table, before + 1, column);
                write!(text, " {cell:x}")?;
            }
        }
    }
    Ok(text)
}

fn range(alloc: Global, stream: &[u8], owner: u32, table: u32) -> Result<String, AllocError> {
    let Ok(tables) = Tables::open(stream) else {
        return String::from_str(alloc, "not open");
    };
    let owner = Token::from_number(owner);
    let Ok(table) = u8::try_from(table) else {
        return String::from_str(alloc, "no table");
    };
    if owner.rid == 0 || owner.rid > tables.rows(owner.table) {
        return String::from_str(alloc, "no row");
    }
    if start_column(owner.table, table).is_none() {
        return String::from_str(alloc, "not owned");
    }
    let run = tables.range(stream, owner, table);
    format!(in alloc; "{run:?}")
}

fn linked(alloc: Global, stream: &[u8], token: u32, link: u32) -> Result<String, AllocError> {
    let Ok(tables) = Tables::open(stream) else {
        return String::from_str(alloc, "not open");
    };
    let Some(link) = links().get(link as usize) else {
        return String::from_str(alloc, "no link");
    };
    let Ok(rows) = tables.linked(alloc, stream, Token::from_number(token), *link) else {
        return String::from_str(alloc, "no memory");
    };
    let mut text = String::from_str(alloc, "rows")?;
    for row in rows.as_slice() {
        let number = row.number();
        write!(text, " {number:08x}")?;
    }
    Ok(text)
}

fn indexed(alloc: Global, stream: &[u8], token: u32, link: u32) -> Result<String, AllocError> {
    let Ok(tables) = Tables::open(stream) else {
        return String::from_str(alloc, "not open");
    };
    let Some(link) = links().get(link as usize) else {
        return String::from_str(alloc, "no link");
    };
    let Ok(index) = LinkIndex::open(alloc, &tables, stream) else {
        return String::from_str(alloc, "no memory");
    };
    let table = link_column(*link).table;
    let mut text = String::from_str(alloc, "rows")?;
    for rid in index.linked(Token::from_number(token), *link) {
        let rid = *rid;
        write!(text, " {table:02x}{rid:06x}")?;
    }
    Ok(text)
}
