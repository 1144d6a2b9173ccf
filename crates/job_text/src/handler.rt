//! What a handler is for, as commands give it (ECMA-335 II.25.4.6).

ghost use Rattle.std.specs.Prelude.{◌≡◌};
ghost use Rattle.job_text.specs.Handlers.{kind_named, kind_with};
ghost use Rattle.serde_json.specs.View.{view};

use crate::command::Command;
use crate::token::given_token;
use crate::values::{given_number, is_null};
use cil_base::Token;
use il_code::HandlerKind;
use serde_json::Value;

/// The kind of that name, whose type or filter is still to come. None exactly where no kind has it.
#[tactic(auto, unfolding(crate::specs::Handlers::kind_named))]
pub(crate) fn kind_named(name: &str) -> Option<HandlerKind>
    ensures { result ≡ kind_named name.now }
{
    if name == "typed" {
        Some(HandlerKind::Typed(Token::ROOT))
    } else if name == "filter" {
        Some(HandlerKind::Filter(0))
    } else if name == "finally" {
        Some(HandlerKind::Finally)
    } else if name == "fault" {
        Some(HandlerKind::Fault)
    } else {
        None
    }
}

/// The kind with the type or the filter that a value gives, or without either for null. None exactly where the value
/// gives none.
#[tactic(auto, unfolding(crate::specs::Handlers::kind_with))]
pub(crate) fn kind_with(
    home: u32,
    before: &[Command],
    kind: HandlerKind,
    value: &Value,
) -> Option<HandlerKind>
    ensures { result ≡ kind_with home before.now kind (view value.now) }
{
    match kind {
        HandlerKind::Typed(_) => {
            let row = given_token(home, before, value)?;
            Some(HandlerKind::Typed(row.token))
        }
        HandlerKind::Filter(_) => {
            let start = given_number(value, 0x1_0000_0000)?;
            Some(HandlerKind::Filter(start as u32))
        }
        HandlerKind::Finally => {
            if is_null(value) {
                Some(HandlerKind::Finally)
            } else {
                None
            }
        }
        HandlerKind::Fault => {
            if is_null(value) {
                Some(HandlerKind::Fault)
            } else {
                None
            }
        }
    }
}
