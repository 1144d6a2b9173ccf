ghost use Rattle.std.specs.Prelude.{◌≡◌, ◌∷◌, ◌++◌, IfOk, OnOk};
ghost use Rattle.dump_text.specs.Entries.{command_text, entry_text, fill_text};

use crate::body::add_labelled;
use crate::key::add_key;
use crate::pieces::add_decimal;
use cil_base::{Bytes, List, NoMemory};
use node_model::{By, Entry, Key};
use std::alloc::Global;

/// Adds the numbers of a caller and of its command, with a point between them.
fn add_command(text: &mut Bytes, by: By) -> Result<(), NoMemory>
    ensures { OnOk result (text.new ≡ text.old ++ command_text by) }
{
    add_decimal(text, u64::from(by.caller))?;
    text.push(b'.')?;
    add_decimal(text, u64::from(by.command))
}

/// Adds that a key was filled: by which step, and after how many entries it was found not filled.
fn add_fill(text: &mut Bytes, by: By, point: u64, key: &Key) -> Result<(), NoMemory>
    ensures { OnOk result (text.new ≡ text.old ++ fill_text by point key.now) }
{
    text.extend(b"fill ")?;
    add_key(text, key)?;
    text.extend(b" by ")?;
    add_command(text, by)?;
    text.push(b'.')?;
    add_decimal(text, by.step)?;
    add_labelled(text, b" after ", point)
}

/// The text of an entry of a history, without a line feed.
#[tactic(auto, unfolding(crate::specs::Entries::entry_text))]
pub fn entry_text(alloc: Global, entry: &Entry) -> Result<Bytes, NoMemory>
    ensures { IfOk result (λ text. text ≡ entry_text entry.now) }
{
    let mut text = List::new(alloc);
    match entry {
        Entry::Fill { by, point, key, .. } => add_fill(&mut text, *by, *point, key)?,
        Entry::Edit { by, .. } => {
            text.extend(b"edit by ")?;
            add_command(&mut text, *by)?;
        }
    }
    Ok(text)
}
