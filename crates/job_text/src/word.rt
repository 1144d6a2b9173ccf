/// What a command asks.
#[derive(Clone, Copy)]
pub enum Question {
    Row,
    Sig,
    Body,
    Data,
    Resource,
    Facts,
    Filled,
    Members,
    Links,
    Name,
    TypeInfo,
    Method,
    FindType,
    FindMember,
}

/// What a command changes.
#[derive(Clone, Copy)]
pub enum Change {
    Set,
    SetSig,
    IlNew,
    IlDrop,
    SetData,
    SetResource,
    SetEntry,
    Add,
    Insert,
    Remove,
    IlInsert,
    IlReplace,
    IlRemove,
    IlHead,
    AddHandler,
    RemoveHandler,
}

/// What a command does.
#[derive(Clone, Copy)]
pub enum Word {
    Ask(Question),
    Change(Change),
    Resolve,
    Attribute,
}
