ghost use Rattle.std.specs.Prelude.{◌≡◌, ◌++◌, length, IfOk, OnOk};
ghost use Rattle.md_write.specs.TableRows.{AreTableRows};
ghost use Rattle.md_write.specs.TablesRead.{HoldsRows};
ghost use Rattle.md_write.specs.TablesStream.{counts_and_rows, filled_to_four, tables_stream};

use crate::counts::{counts_of_rows, push_counts};
use crate::header::{push_header, valid};
use crate::rows::push_rows;
use cil_base::{Bytes, List, NoMemory};
use std::alloc::Global;

/// The tables stream of these rows: 64 lists of rows, by the numbers of their tables, each row with a number for each
/// column (ECMA-335 II.24.2.6). `heap_sizes` has the bits of the large heaps (1 `#Strings`, 2 `#GUID`, 4 `#Blob`). The
/// bytes are padded with zeros to a multiple of 4.
pub fn tables_stream(
    alloc: Global,
    heap_sizes: u8,
    tables: &[List<List<u32>>],
) -> Result<Bytes, NoMemory>
    requires { AreTableRows heap_sizes tables.now }
    ensures bytes { IfOk result (λ stream. stream ≡ tables_stream heap_sizes tables.now) }
    ensures read { IfOk result (HoldsRows heap_sizes tables.now) }
{
    lay_stream(alloc, heap_sizes, tables)
}

/// The bytes of the stream.
#[tactic(auto, unfolding(crate::specs::TablesStream::tables_stream))]
fn lay_stream(alloc: Global, heap_sizes: u8, tables: &[List<List<u32>>]) -> Result<Bytes, NoMemory>
    requires { AreTableRows heap_sizes tables.now }
    ensures { IfOk result (λ stream. stream ≡ tables_stream heap_sizes tables.now) }
{
    let mut stream = List::new(alloc);
    push_header(&mut stream, heap_sizes, valid(tables))?;
    push_counts_and_rows(&mut stream, heap_sizes, tables)?;
    push_zeros(&mut stream)?;
    Ok(stream)
}

/// Adds the counts, and the rows of all tables.
#[tactic(auto, unfolding(crate::specs::TablesStream::counts_and_rows))]
fn push_counts_and_rows(
    out: &mut Bytes,
    heap_sizes: u8,
    tables: &[List<List<u32>>],
) -> Result<(), NoMemory>
    requires { AreTableRows heap_sizes tables.now }
    ensures { OnOk result (out.new ≡ out.old ++ counts_and_rows heap_sizes tables.now) }
{
    let counts = counts_of_rows(heap_sizes, tables);
    push_counts(out, tables)?;
    push_rows(out, &counts, tables)?;
    Ok(())
}

/// Adds zeros up to a multiple of 4.
fn push_zeros(out: &mut Bytes) -> Result<(), NoMemory>
    ensures { OnOk result (out.new ≡ filled_to_four out.old) }
{
    let count = (4 - out.len() % 4) % 4;
    out.extend(&[0; 4][..count])
}
