ghost use Rattle.std.specs.Prelude.{◌≡◌};
ghost use Rattle.node_model.specs.Keys.{is_of_root, token_of_key};

use cil_base::Token;
use md_schema::Link;

/// What holds a value or a fault. A row has a key of each kind that its table has; the root has lists of the tables
/// whose rows the image itself lists.
#[derive(Clone, Copy, PartialEq, Eq, Hash)]
pub enum Key {
    /// The cells of a row.
    Row(Token),
    /// The signature of a row.
    Sig(Token),
    /// The rows of a table that a row owns, or the root.
    Owned(Token, u8),
    /// The rows that belong to a row by a link.
    Linked(Token, Link),
    /// The body of a MethodDef row.
    Body(Token),
    /// The data of a FieldRVA row.
    Data(Token),
    /// What a ManifestResource row names.
    Resource(Token),
    /// What the headers say of the image as a whole.
    Facts,
}

impl Key {
    /// The row of the key, or the root.
    pub fn token(&self) -> Token
        ensures { result ≡ token_of_key self.now }
    {
        match self {
            Key::Row(token) => *token,
            Key::Sig(token) => *token,
            Key::Owned(token, _) => *token,
            Key::Linked(token, _) => *token,
            Key::Body(token) => *token,
            Key::Data(token) => *token,
            Key::Resource(token) => *token,
            Key::Facts => Token::ROOT,
        }
    }

    /// Whether the key is one of the root's: a list of it, or the facts.
    pub fn is_of_root(&self) -> bool
        ensures { result ≡ is_of_root self.now }
    {
        match self {
            Key::Owned(token, _) => token.table == 0 && token.rid == 0,
            Key::Facts => true,
            _ => false,
        }
    }
}
