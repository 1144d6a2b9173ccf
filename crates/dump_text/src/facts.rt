ghost use Rattle.std.specs.Prelude.{◌≡◌, ◌++◌, OnOk};
ghost use Rattle.dump_text.specs.Pieces.{hex_number};
ghost use Rattle.dump_text.specs.FactsText.{characteristics_text, cli_header_text, facts_text, file_header_text};
ghost use Rattle.dump_text.specs.FactsText.{format_text, machine_text, optional_header_text, runtime_text};

use crate::body::add_labelled;
use crate::key::add_word;
use crate::pieces::{add_flag, add_hex, add_quoted};
use cil_base::{Bytes, NoMemory};
use pe_image::Facts;

/// Adds a word and a number of two bytes in hex.
#[tactic(auto, unfolding(crate::specs::Pieces::hex_number))]
fn add_short(text: &mut Bytes, word: &[u8], number: u16) -> Result<(), NoMemory>
    ensures { OnOk result (text.new ≡ text.old ++ (word.now ++ hex_number 2 number)) }
{
    text.extend(word)?;
    add_hex(text, &number.to_be_bytes())
}

/// Adds a word and a number of eight bytes in hex.
#[tactic(auto, unfolding(crate::specs::Pieces::hex_number))]
fn add_long(text: &mut Bytes, word: &[u8], number: u64) -> Result<(), NoMemory>
    ensures { OnOk result (text.new ≡ text.old ++ (word.now ++ hex_number 8 number)) }
{
    text.extend(word)?;
    add_hex(text, &number.to_be_bytes())
}

/// Adds the image's format.
fn add_format(text: &mut Bytes, facts: &Facts) -> Result<(), NoMemory>
    ensures { OnOk result (text.new ≡ text.old ++ format_text facts.now) }
{
    if facts.plus {
        text.extend(b" pe32+")
    } else {
        text.extend(b" pe32")
    }
}

/// Adds the machine that the file header names, and when the file was made.
fn add_machine(text: &mut Bytes, facts: &Facts) -> Result<(), NoMemory>
    ensures { OnOk result (text.new ≡ text.old ++ machine_text facts.now) }
{
    add_short(text, b" machine=", facts.machine)?;
    add_labelled(text, b" time=", u64::from(facts.time))
}

/// Adds the flags of the file header.
fn add_characteristics(text: &mut Bytes, facts: &Facts) -> Result<(), NoMemory>
    ensures { OnOk result (text.new ≡ text.old ++ characteristics_text facts.now) }
{
    add_short(text, b" characteristics=", facts.characteristics)
}

/// Adds what the file header says.
fn add_file_header(text: &mut Bytes, facts: &Facts) -> Result<(), NoMemory>
    ensures { OnOk result (text.new ≡ text.old ++ file_header_text facts.now) }
{
    add_machine(text, facts)?;
    add_characteristics(text, facts)
}

/// Adds what the optional header says.
fn add_optional_header(text: &mut Bytes, facts: &Facts) -> Result<(), NoMemory>
    ensures { OnOk result (text.new ≡ text.old ++ optional_header_text facts.now) }
{
    add_long(text, b" base=", facts.base)?;
    add_labelled(text, b" subsystem=", u64::from(facts.subsystem))?;
    add_short(text, b" dll=", facts.dll)
}

/// Adds the version that the CLI header asks for.
fn add_runtime(text: &mut Bytes, facts: &Facts) -> Result<(), NoMemory>
    ensures { OnOk result (text.new ≡ text.old ++ runtime_text facts.now) }
{
    add_labelled(text, b" runtime=", u64::from(facts.runtime_major))?;
    add_labelled(text, b".", u64::from(facts.runtime_minor))
}

/// Adds what else the CLI header says, and the metadata's version.
fn add_cli_header(text: &mut Bytes, facts: &Facts) -> Result<(), NoMemory>
    ensures { OnOk result (text.new ≡ text.old ++ cli_header_text facts.now) }
{
    add_labelled(text, b" flags=", u64::from(facts.flags))?;
    text.extend(b" native=")?;
    add_flag(text, facts.native)?;
    add_word(text, b" entry=", facts.entry)?;
    text.extend(b" version=")?;
    add_quoted(text, facts.version.as_slice())
}

/// Adds what the headers say of an image.
pub(crate) fn add_facts(text: &mut Bytes, facts: &Facts) -> Result<(), NoMemory>
    ensures { OnOk result (text.new ≡ text.old ++ facts_text facts.now) }
{
    text.extend(b"facts")?;
    add_format(text, facts)?;
    add_file_header(text, facts)?;
    add_optional_header(text, facts)?;
    add_runtime(text, facts)?;
    add_cli_header(text, facts)
}
