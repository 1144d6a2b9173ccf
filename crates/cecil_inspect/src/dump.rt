ghost use Rattle.std.specs.Prelude.{◌≡◌, ◌++◌, OnOk};
ghost use Rattle.std.specs.List.{flat_map};
ghost use Rattle.cecil_inspect.specs.Lines.{dump, listed, row_line};

use crate::line::{add_line, reply_of};
use cil_base::{Bytes, NoMemory, Token};
use md_schema::table;
use node_model::{Query, Reply};
use node_read::Image;
use std::alloc::Global;

/// Adds the lines of rows.
fn add_rows(
    alloc: Global,
    text: &mut Bytes,
    image: &Image,
    tokens: &[Token],
) -> Result<(), NoMemory>
    ensures { OnOk result (text.new ≡ text.old ++ flat_map (row_line image.now) tokens.now) }
{
    for token in tokens {
        add_line(alloc, text, image, &Query::Row(*token))?;
    }
    Ok(())
}

/// The tokens of a list that was asked for; none of another reply.
fn listed(said: &Reply) -> &[Token]
    ensures { result.now ≡ listed said.now }
{
    match said {
        Reply::Tokens(_, tokens) => tokens.as_slice(),
        _ => &[],
    }
}

/// Adds the lines of an image: that of the first Module row, and those of all TypeDef rows (ECMA-335 II.22.30,
/// II.22.37).
#[tactic(auto, unfolding(crate::specs::Lines::dump))]
pub(crate) fn add_dump(alloc: Global, text: &mut Bytes, image: &Image) -> Result<(), NoMemory>
    ensures { OnOk result (text.new ≡ text.old ++ dump image.now) }
{
    let first = Token {
        table: table::MODULE,
        rid: 1,
    };
    add_line(alloc, text, image, &Query::Row(first))?;
    let types = reply_of(alloc, image, &Query::Members(Token::ROOT, table::TYPE_DEF))?;
    add_rows(alloc, text, image, listed(&types))
}
