//! Members that are looked for by their names and signatures, and what the replies lead to (ECMA-335 II.22.15,
//! II.22.25, II.22.26, II.22.37).

ghost use Rattle.std.specs.Prelude.{◌≡◌, codes, IfOk};
ghost use Rattle.node_model.specs.RowTexts.{token_named};
ghost use Rattle.resolver.specs.Found.{found, on_found, on_name, on_row, on_sig};
ghost use Rattle.resolver.specs.Members.{after_extends, after_member, after_sort, sort_table};
ghost use Rattle.resolver.specs.Questions.{member_question};

use crate::cells::token_named;
use crate::found::{found, hop_for, stopped, unresolved};
use crate::next::{Next, question};
use crate::state::{Advance, Stage, State};
use crate::waiting::Waiting;
use cil_base::{Bytes, NoMemory, Token};
use md_schema::table;
use node_model::{OptText, Query, Reply};
use sig_tree::SigTree;
use std::alloc::Global;

/// A field or a method, by its table, its name and its printed signature.
#[derive(Drop)]
pub(crate) struct MemberName {
    pub table: u8,
    pub name: Bytes,
    pub sig: Bytes,
}

/// What is asked for a member of a type.
#[derive(Drop)]
pub(crate) enum MemberStage {
    /// The printed signature of the MemberRef, whose class was found.
    SigText {
        at: u32,
        member: Token,
        name: Bytes,
        found_at: u32,
        of: Token,
    },
    /// The signature itself, by which the member is a field or a method.
    SigSort {
        at: u32,
        member: Token,
        name: Bytes,
        text: Bytes,
        found_at: u32,
        of: Token,
    },
    /// The member of the type by its name.
    ByName {
        at: u32,
        of: Token,
        wanted: MemberName,
    },
    /// The row of the type, which has no such member.
    Base {
        at: u32,
        of: Token,
        wanted: MemberName,
    },
}

impl MemberName {
    /// An equal name of its own.
    pub(crate) fn copy(&self) -> Result<MemberName, NoMemory>
        ensures { IfOk result (λ copy. copy ≡ self.now) }
    {
        let name = self.name.copy()?;
        let sig = self.sig.copy()?;
        Ok(MemberName {
            table: self.table,
            name,
            sig,
        })
    }

    /// The search for the member of a type.
    fn search(&self, of: Token) -> Result<Query, NoMemory>
        ensures { IfOk result (λ query. query
            ≡ Query.FindMember of self.now.table self.now.name (OptText.Is self.now.sig)) }
    {
        let name = self.name.copy()?;
        let sig = self.sig.copy()?;
        Ok(Query::FindMember {
            of,
            table: self.table,
            name,
            sig: OptText::Is(sig),
        })
    }
}

impl MemberStage {
    pub(crate) fn question(&self) -> Result<Next, NoMemory>
        ensures { IfOk result (λ next. next ≡ member_question self.now) }
    {
        match self {
            MemberStage::SigText { at, member, .. } => question(*at, Query::Name(*member)),
            MemberStage::SigSort { at, member, .. } => question(*at, Query::Sig(*member)),
            MemberStage::ByName { at, of, wanted } => question(*at, wanted.search(*of)?),
            MemberStage::Base { at, of, .. } => question(*at, Query::Row(*of)),
        }
    }
}

/// The table of the members that have a signature of this sort.
fn sort_table(sig: &SigTree) -> Option<u8>
    ensures { result ≡ sort_table sig.now }
{
    match sig {
        SigTree::Field(_) => Some(table::FIELD),
        SigTree::Method(_) => Some(table::METHOD_DEF),
        _ => None,
    }
}

fn after_text(
    alloc: Global,
    at: u32,
    member: Token,
    name: &Bytes,
    found_at: u32,
    of: Token,
    reply: &Reply,
) -> Result<Advance, NoMemory>
    ensures { IfOk result (λ advance. advance ≡ on_name reply.now (λ text. Advance.To
        (Stage.Member (MemberStage.SigSort at member name.now text found_at of)))) }
{
    match reply {
        Reply::Name(_, text) => {
            let name = name.copy()?;
            let text = text.copy()?;
            Ok(Advance::To(Stage::Member(MemberStage::SigSort {
                at,
                member,
                name,
                text,
                found_at,
                of,
            })))
        }
        _ => stopped(alloc, reply),
    }
}

fn after_sort(
    alloc: Global,
    reply: &Reply,
    name: &Bytes,
    text: &Bytes,
    at: u32,
    of: Token,
    table: Option<u8>,
) -> Result<Advance, NoMemory>
    ensures { IfOk result (λ advance. advance ≡ after_sort reply.now name.now text.now at of table) }
{
    let Some(table) = table else {
        return stopped(alloc, reply);
    };
    let name = name.copy()?;
    let sig = text.copy()?;
    let wanted = MemberName { table, name, sig };
    Ok(Advance::To(Stage::Member(MemberStage::ByName { at, of, wanted })))
}

fn after_sig(
    alloc: Global,
    name: &Bytes,
    text: &Bytes,
    at: u32,
    of: Token,
    reply: &Reply,
) -> Result<Advance, NoMemory>
    ensures { IfOk result (λ advance. advance ≡ on_sig reply.now
        (λ sig. after_sort reply.now name.now text.now at of (sort_table sig))) }
{
    match reply {
        Reply::Sig(_, sig) => after_sort(alloc, reply, name, text, at, of, sort_table(sig.tree())),
        _ => stopped(alloc, reply),
    }
}

fn after_search(
    alloc: Global,
    state: &State,
    at: u32,
    of: Token,
    wanted: &MemberName,
    reply: &Reply,
) -> Result<Advance, NoMemory>
    ensures { IfOk result (λ advance. advance ≡ on_found reply.now (found state.now at)
        (Advance.To (Stage.Member (MemberStage.Base at of wanted.now)))) }
{
    match reply {
        Reply::Found(token) => found(alloc, state, at, *token),
        Reply::NotFound => {
            let wanted = wanted.copy()?;
            Ok(Advance::To(Stage::Member(MemberStage::Base { at, of, wanted })))
        }
        _ => stopped(alloc, reply),
    }
}

/// A type without the member, by the type that it extends.
fn after_extends(
    alloc: Global,
    state: &State,
    at: u32,
    wanted: &MemberName,
    extends: Option<Token>,
) -> Result<Advance, NoMemory>
    ensures { IfOk result (λ advance. advance ≡ after_extends state.now at wanted.now extends) }
{
    match extends {
        Some(token) => {
            let first = Waiting::Base(wanted.copy()?);
            hop_for(alloc, state, first, at, token)
        }
        None => unresolved(state, &wanted.name),
    }
}

fn after_base(
    alloc: Global,
    state: &State,
    at: u32,
    wanted: &MemberName,
    reply: &Reply,
) -> Result<Advance, NoMemory>
    ensures { IfOk result (λ advance. advance ≡ on_row reply.now
        (λ row. after_extends state.now at wanted.now (token_named (codes "Extends") row))) }
{
    match reply {
        Reply::Row(row) => after_extends(alloc, state, at, wanted, token_named(row, b"Extends")),
        _ => stopped(alloc, reply),
    }
}

/// What the reply leads to.
pub(crate) fn after_member(
    alloc: Global,
    state: &State,
    stage: &MemberStage,
    reply: &Reply,
) -> Result<Advance, NoMemory>
    ensures { IfOk result (λ advance. advance ≡ after_member state.now stage.now reply.now) }
{
    match stage {
        MemberStage::SigText {
            at,
            member,
            name,
            found_at,
            of,
        } => after_text(alloc, *at, *member, name, *found_at, *of, reply),
        MemberStage::SigSort {
            name,
            text,
            found_at,
            of,
            ..
        } => after_sig(alloc, name, text, *found_at, *of, reply),
        MemberStage::ByName { at, of, wanted } => {
            after_search(alloc, state, *at, *of, wanted, reply)
        }
        MemberStage::Base { at, wanted, .. } => after_base(alloc, state, *at, wanted, reply),
    }
}
