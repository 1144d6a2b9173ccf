//! The outside of a program as traits: a folder that is read and an outlet that takes text and files, each with a count
//! of the faults that it met, and both in memory, with and without calls that fail; and a gate, which is told what the
//! commands of actors have come to.
#![tactic(auto)]

mod files;
mod folder;
mod gate;
mod hold_gate;
mod laws;
mod memory_outlet;
mod outlet;
mod puts;
mod sound_folder;
mod sound_outlet;
mod table_folder;

pub use files::NamedFile;
pub use folder::{Folder, Got};
pub use gate::{Gate, GatePoint, OpenGate};
pub use hold_gate::HoldGate;
pub use laws::{gates_are_shared, last_put_counts};
pub use memory_outlet::MemoryOutlet;
pub use outlet::{Outlet, Sent};
pub use puts::PutFile;
pub use sound_folder::SoundFolder;
pub use sound_outlet::SoundOutlet;
pub use table_folder::TableFolder;
