ghost use Rattle.std.specs.Prelude.{◌≡◌, [], ◌∷◌, ◌++◌, OnOk};
ghost use Rattle.sig_tree.specs.Printed.{own_text};
ghost use Rattle.dump_text.specs.KeyTexts.{key_text};

use crate::names::{link_text, table_text};
use cil_base::{Bytes, NoMemory, Token};
use md_schema::Link;
use node_model::Key;

/// Adds a word and a token.
pub(crate) fn add_word(text: &mut Bytes, word: &[u8], token: Token) -> Result<(), NoMemory>
    ensures { OnOk result (text.new ≡ text.old ++ word.now ++ own_text token) }
{
    text.extend(word)?;
    text.extend(&token.hex_digits())
}

/// Adds a word, a token and a space.
pub(crate) fn add_of(text: &mut Bytes, word: &[u8], token: Token) -> Result<(), NoMemory>
    ensures { OnOk result (text.new ≡ text.old ++ (word.now ++ own_text token ++ 0x20 ∷ [])) }
{
    add_word(text, word, token)?;
    text.push(b' ')
}

/// Adds the key of the rows of a table that a row owns.
fn add_owned(text: &mut Bytes, token: Token, table: u8) -> Result<(), NoMemory>
    ensures { OnOk result (text.new ≡ text.old ++ key_text (Key.Owned token table)) }
{
    add_of(text, b"owned ", token)?;
    text.extend(table_text(table))
}

/// Adds the key of the rows that belong to a row by a link.
fn add_linked(text: &mut Bytes, token: Token, link: Link) -> Result<(), NoMemory>
    ensures { OnOk result (text.new ≡ text.old ++ key_text (Key.Linked token link)) }
{
    add_of(text, b"linked ", token)?;
    text.extend(link_text(link))
}

/// Adds a key.
pub(crate) fn add_key(text: &mut Bytes, key: &Key) -> Result<(), NoMemory>
    ensures { OnOk result (text.new ≡ text.old ++ key_text key.now) }
{
    match key {
        Key::Row(token) => add_word(text, b"row ", *token),
        Key::Sig(token) => add_word(text, b"sig ", *token),
        Key::Owned(token, table) => add_owned(text, *token, *table),
        Key::Linked(token, link) => add_linked(text, *token, *link),
        Key::Body(token) => add_word(text, b"body ", *token),
        Key::Data(token) => add_word(text, b"data ", *token),
        Key::Resource(token) => add_word(text, b"resource ", *token),
        Key::Facts => text.extend(b"facts"),
    }
}
