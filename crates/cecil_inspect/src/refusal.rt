ghost use Rattle.std.specs.Prelude.{◌≡◌, ◌∷◌, ◌++◌, OnOk, codes};
ghost use Rattle.std.specs.Fmt.{decimal};
ghost use Rattle.cecil_inspect.specs.Statuses.{job_refusal_text, pe_refusal_text, refusal_text, tables_refusal_text};

use cil_base::{Bytes, NoMemory};
use job_text::JobRefusal;
use md_tables::TablesRefusal;
use node_read::OpenRefusal;
use pe_image::PeRefusal;

/// Adds a number in decimal to a text.
pub fn add_decimal(text: &mut Bytes, number: u64) -> Result<(), NoMemory>
    ensures { OnOk result (text.new ≡ text.old ++ decimal number) }
{
    let digits = format!(in text.allocator(); "{number}")?;
    text.extend(digits.as_bytes())
}

/// Adds what is counted, and a number.
fn add_counted(text: &mut Bytes, name: &[u8], number: u64) -> Result<(), NoMemory>
    ensures { OnOk result (text.new ≡ text.old ++ (name.now ++ decimal number)) }
{
    text.extend(name)?;
    add_decimal(text, number)
}

/// Adds a refusal that has a number of its own, in brackets.
fn add_numbered(text: &mut Bytes, name: &[u8], number: u64) -> Result<(), NoMemory>
    ensures { OnOk result (text.new ≡ text.old ++ (name.now ++ decimal number ++ codes ")")) }
{
    add_counted(text, name, number)?;
    text.extend(b")")
}

/// Adds a refusal of the headers and the streams.
fn add_pe(text: &mut Bytes, refusal: PeRefusal) -> Result<(), NoMemory>
    ensures { OnOk result (text.new ≡ text.old ++ pe_refusal_text refusal) }
{
    match refusal {
        PeRefusal::TooLarge => text.extend(b"1 TooLarge"),
        PeRefusal::NoDos => text.extend(b"2 NoDos"),
        PeRefusal::NoPe => text.extend(b"3 NoPe"),
        PeRefusal::BadMagic(magic) => add_numbered(text, b"4 BadMagic(", magic),
        PeRefusal::BadSections => text.extend(b"5 BadSections"),
        PeRefusal::NoCli => text.extend(b"6 NoCli"),
        PeRefusal::BadCli => text.extend(b"7 BadCli"),
        PeRefusal::BadRoot => text.extend(b"8 BadRoot"),
        PeRefusal::BadStreams => text.extend(b"9 BadStreams"),
        PeRefusal::NoTables => text.extend(b"10 NoTables"),
    }
}

/// Adds a refusal of the stream of the tables.
fn add_tables(text: &mut Bytes, refusal: TablesRefusal) -> Result<(), NoMemory>
    ensures { OnOk result (text.new ≡ text.old ++ tables_refusal_text refusal) }
{
    match refusal {
        TablesRefusal::UnsupportedTable(table) => {
            add_numbered(text, b"11 UnsupportedTable(", u64::from(table))
        }
        TablesRefusal::BadHeapSizes(sizes) => add_numbered(text, b"12 BadHeapSizes(", sizes),
        TablesRefusal::BadTables => text.extend(b"13 BadTables"),
    }
}

/// Adds a refusal: its number, its name and, in brackets, its own number where it has one. Nothing for want of memory.
pub(crate) fn add_refusal(text: &mut Bytes, refusal: OpenRefusal) -> Result<(), NoMemory>
    ensures { OnOk result (text.new ≡ text.old ++ refusal_text refusal) }
{
    match refusal {
        OpenRefusal::Pe(refusal) => add_pe(text, refusal),
        OpenRefusal::Tables(refusal) => add_tables(text, refusal),
        OpenRefusal::NoMemory => Ok(()),
    }
}

/// Adds which value in the place of a command is none.
fn add_no_command(text: &mut Bytes, actor: u32, command: u32) -> Result<(), NoMemory>
    ensures { OnOk result (text.new ≡ text.old ++ (codes "no command at " ++ decimal actor ++ 0x2e ∷ decimal command)) }
{
    text.extend(b"no command at ")?;
    add_decimal(text, u64::from(actor))?;
    text.push(b'.')?;
    add_decimal(text, u64::from(command))
}

/// Adds why a job file is none.
pub(crate) fn add_job_refusal(text: &mut Bytes, refusal: JobRefusal) -> Result<(), NoMemory>
    ensures { OnOk result (text.new ≡ text.old ++ job_refusal_text refusal) }
{
    match refusal {
        JobRefusal::NotJson => text.extend(b"not JSON"),
        JobRefusal::Shape => text.extend(b"not a job"),
        JobRefusal::OverLimit(count) => add_counted(text, b"over the limit ", count),
        JobRefusal::NotACommand { actor, command } => add_no_command(text, actor, command),
    }
}
