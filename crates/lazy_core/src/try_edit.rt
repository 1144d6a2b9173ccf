//! How the graph is edited.
ghost use Rattle.std.specs.Prelude.{◌≡◌, ◌∷◌, [], IfOk, OnErr};
ghost use Rattle.lazy_core.specs.Steps.{history_tried, tried};

use crate::lazy::Core;
use crate::wanted::Tried;
use cil_base::{List, NoMemory};
use graph_edits::{Applied, apply};
use node_model::{By, Edit, Entry};
use std::alloc::Global;

/// The entry of one edit.
fn edit_entry(alloc: Global, by: By, edit: &Edit) -> Result<Entry, NoMemory>
    ensures { IfOk result (λ entry. entry ≡ Entry.Edit by (edit.now ∷ [])) }
{
    let mut edits = List::new(alloc);
    edits.push(edit.copy(alloc)?)?;
    Ok(Entry::Edit { by, edits })
}

impl Core {
    /// Edits the graph. `Need` comes exactly where a key that the edit looks at is not filled. Else it is `Refused`
    /// with the first refusal, or `Done`, which adds one entry with the edit. `Need`, `Refused` and `NoMemory` change
    /// neither graph nor history; memory that was taken ahead is not kept for fills.
    pub fn try_edit(&mut self, alloc: Global, by: By, edit: &Edit) -> Result<Tried, NoMemory>
        ensures answer { IfOk result (λ answer. answer ≡ tried self.old.bytes self.old.history edit.now) }
        ensures history { IfOk result (λ answer. self.new.history ≡ history_tried by edit.now self.old.history answer) }
        ensures image { self.new.bytes ≡ self.old.bytes }
        ensures kept { OnErr result (self.new.history ≡ self.old.history) }
    {
        self.spare = 0;
        // The entry comes first, so that no memory is wanted once the graph has changed.
        self.history.push(edit_entry(alloc, by, edit)?)?;
        match apply(alloc, &mut self.graph, edit) {
            Ok(Applied::Done(made)) => Ok(Tried::Done(made)),
            Ok(Applied::Refused(refusal)) => {
                self.history.pop();
                Ok(Tried::Refused(refusal))
            }
            Ok(Applied::Need(keys)) => {
                self.history.pop();
                Ok(Tried::Need(keys))
            }
            Err(NoMemory) => {
                self.history.pop();
                Err(NoMemory)
            }
        }
    }
}
