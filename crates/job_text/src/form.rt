//! The commands as data: the name of each, and what its arguments are, in order.

ghost use Rattle.std.specs.Prelude.{◌≡◌, map, option_map};
ghost use Rattle.job_text.specs.Forms.{form_named, forms, seen_form};

use crate::word::{Change, Question, Word};

/// What an argument is.
#[derive(Clone, Copy)]
pub enum ArgumentKind {
    /// The number of a module.
    Module,
    /// A token.
    Token,
    /// A token of the row that owns the other one, or of the root.
    Owner,
    /// A token of local variables, or null for the root.
    Locals,
    /// The name of a table.
    Table,
    /// The name of the table Field or MethodDef.
    MemberTable,
    /// The name of a link.
    Link,
    /// The name of a column of the token's table, which is a cell.
    Column,
    /// A cell of that column.
    Cell,
    /// Cells of the table.
    Cells,
    /// A signature of a row of the table.
    Sig,
    /// The same, or null.
    SigOrNull,
    /// A place in a list, or the number of an instruction or of a handler.
    At,
    /// A number of two bytes.
    MaxStack,
    /// True or false.
    InitLocals,
    /// A text.
    Namespace,
    /// A text.
    Name,
    /// A text, or null.
    TextOrNull,
    /// A text of hex digits.
    Bytes,
    /// The name of an instruction.
    Code,
    /// An operand of that instruction.
    Operand,
    /// What a handler is for.
    HandlerKind,
    /// The number of an instruction.
    TryStart,
    /// The number of an instruction.
    TryEnd,
    /// The number of an instruction.
    HandlerStart,
    /// The number of an instruction.
    HandlerEnd,
    /// The type or the filter of the handler, or null.
    HandlerWith,
}

/// The name of a command, what it does, and what its arguments are.
#[derive(Clone, Copy)]
pub struct Form {
    pub name: &'static str,
    pub word: Word,
    pub kinds: &'static [ArgumentKind],
}

/// The form of a command on a module, with the arguments after the module.
macro_rules! form {
    ($name:literal, $word:expr $(, $kind:ident)*) => {
        Form {
            name: $name,
            word: $word,
            kinds: &[ArgumentKind::Module $(, ArgumentKind::$kind)*],
        }
    };
}

/// The commands.
static FORMS: [Form; 32] = [
    form!("row", Word::Ask(Question::Row), Token),
    form!("sig", Word::Ask(Question::Sig), Token),
    form!("body", Word::Ask(Question::Body), Token),
    form!("data", Word::Ask(Question::Data), Token),
    form!("resource", Word::Ask(Question::Resource), Token),
    form!("facts", Word::Ask(Question::Facts)),
    form!("filled", Word::Ask(Question::Filled)),
    form!("members", Word::Ask(Question::Members), Token, Table),
    form!("links", Word::Ask(Question::Links), Token, Link),
    form!("name", Word::Ask(Question::Name), Token),
    form!("type", Word::Ask(Question::TypeInfo), Token),
    form!("method", Word::Ask(Question::Method), Token),
    form!("findtype", Word::Ask(Question::FindType), Namespace, Name),
    form!(
        "findmember",
        Word::Ask(Question::FindMember),
        Token,
        MemberTable,
        Name,
        TextOrNull
    ),
    form!("set", Word::Change(Change::Set), Token, Column, Cell),
    form!("setsig", Word::Change(Change::SetSig), Token, Sig),
    form!("ilnew", Word::Change(Change::IlNew), Token),
    form!("ildrop", Word::Change(Change::IlDrop), Token),
    form!("setdata", Word::Change(Change::SetData), Token, Bytes),
    form!(
        "setresource",
        Word::Change(Change::SetResource),
        Token,
        Bytes
    ),
    form!("entry", Word::Change(Change::SetEntry), Token),
    form!("add", Word::Change(Change::Add), Table, Cells, SigOrNull),
    form!(
        "insert",
        Word::Change(Change::Insert),
        Token,
        Table,
        At,
        Cells,
        SigOrNull
    ),
    form!("remove", Word::Change(Change::Remove), Owner, Token),
    form!(
        "ilinsert",
        Word::Change(Change::IlInsert),
        Token,
        At,
        Code,
        Operand
    ),
    form!(
        "ilreplace",
        Word::Change(Change::IlReplace),
        Token,
        At,
        Code,
        Operand
    ),
    form!("ilremove", Word::Change(Change::IlRemove), Token, At),
    form!(
        "ilhead",
        Word::Change(Change::IlHead),
        Token,
        MaxStack,
        InitLocals,
        Locals
    ),
    form!(
        "iltry",
        Word::Change(Change::AddHandler),
        Token,
        HandlerKind,
        TryStart,
        TryEnd,
        HandlerStart,
        HandlerEnd,
        HandlerWith
    ),
    form!("iluntry", Word::Change(Change::RemoveHandler), Token, At),
    form!("resolve", Word::Resolve, Token),
    form!("attribute", Word::Attribute, Token),
];

/// The commands, lent.
fn all_forms() -> &'static [Form]
    ensures { map seen_form result.now ≡ forms }
{
    &FORMS
}

/// The form of that name. None exactly where no command has it.
#[tactic(auto, unfolding(crate::specs::Forms::form_named))]
pub(crate) fn form_named(name: &str) -> Option<Form>
    ensures { option_map seen_form result ≡ form_named name.now }
{
    for form in all_forms() {
        if form.name == name {
            return Some(*form);
        }
    }
    None
}
