ghost use Rattle.std.specs.Prelude.{◌≡◌, ℕ, [], IfOk, None, length, replicate, slice_index};
ghost use Rattle.graph_edits.specs.Graphs.{nodes_in, slots_in};
ghost use Rattle.lazy_core.specs.Legal.{Legal};
ghost use Rattle.node_model.specs.Keys.{image_rows};
ghost use Rattle.node_model.specs.Nodes.{nodes_of};
ghost use Rattle.node_model.specs.Places.{image_shape};
ghost use Rattle.node_model.specs.declared.key.Key.{Key};

use cil_base::{List, NoMemory};
use graph_edits::EditGraph;
use node_model::{Entry, image_shape};
use node_read::Image;
use slot_store::Slots;
use std::alloc::Global;
use std::marker::Model;
use std::sync::Arc;

/// The core of an image: its graph with what is filled and edited, and the history of both. Contracts see a core as the
/// bytes of its image, its history, and the number of fills for which memory was taken ahead. At every moment the
/// history is legal, and a key has a slot exactly where it is filled: what it holds after the history.
#[derive(Drop)]
pub struct Core {
    pub(crate) image: Arc<Image>,
    pub(crate) graph: EditGraph,
    pub(crate) history: Vec<Entry>,
    pub(crate) fills: u64,
    pub(crate) spare: usize,
}

impl Model for Core {
    ghost use Rattle.std.specs.Prelude.{vec_capacity};
    ghost use Rattle.lazy_core.specs.Slots.{CoreState, CountsFills, HasSpare, Holds};
    ghost use Rattle.sig_tree.specs.contracts.tree.TypeSig as types;
    ghost use Rattle.std.specs.Coded.{codes};

    ghost Value = { CoreState };

    ghost coded = { Prim.hlevel (codes, types.the_row.coded) };

    ghost view = { λ c. record { bytes = c.image.value; history = c.history.items; spare = c.spare } };

    ghost invariant = { λ c. Holds c.image.value c.history.items c.graph
        × HasSpare c.history.items c.graph c.spare (vec_capacity c.history)
        × CountsFills c.history.items c.fills };
}

/// The number of rows of each table.
pub(crate) fn row_counts(image: &Image) -> [u32; 64]
    ensures rows { (table : ℕ) → slice_index result table ≡ image_rows image.now table }
    ensures long { length result ≡ 64 }
{
    let mut rows = [0; 64];
    for table in 0..64 {
        rows[table as usize] = image.rows(table);
    }
    rows
}

/// The graph of an image with these rows, in which no key has a slot.
fn unfilled_graph(alloc: Global, rows: [u32; 64]) -> Result<EditGraph, NoMemory>
    ensures nodes { IfOk result (λ graph. nodes_in graph ≡ nodes_of rows (replicate 64 0) []) }
    ensures slots { IfOk result (λ graph. (key : Key) → slots_in graph key ≡ None) }
    ensures rows { IfOk result (λ graph. graph.rows ≡ rows) }
    ensures shape { IfOk result (λ graph. graph.slots.shape ≡ image_shape rows) }
{
    let slots = Slots::new(alloc, &image_shape(&rows))?;
    let removed = List::new(alloc);
    Ok(EditGraph {
        slots,
        rows,
        added: [0; 64],
        removed,
    })
}

impl Core {
    /// The core of an image, with nothing filled. It takes 4 bytes for each key of the image.
    pub fn open(alloc: Global, image: Arc<Image>) -> Result<Core, NoMemory>
        ensures image { IfOk result (λ core. core.bytes ≡ image.value) }
        ensures history { IfOk result (λ core. core.history ≡ []) }
    {
        let graph = unfilled_graph(alloc, row_counts(&image))?;
        Ok(Core {
            image,
            graph,
            history: Vec::new(alloc),
            fills: 0,
            spare: 0,
        })
    }

    /// The image.
    pub fn image(&self) -> &Arc<Image>
        ensures { result.now.value ≡ self.now.bytes }
    {
        &self.image
    }

    /// What was filled and what was edited, in order.
    pub fn history(&self) -> &[Entry]
        ensures { result.now ≡ self.now.history }
    {
        self.history.as_slice()
    }

    /// For its clause alone: the history is legal, as that of every core is.
    pub fn has_legal_history(&self)
        ensures { Legal self.now.bytes self.now.history }
    {
        let _history = &self.history;
    }
}
