//! That the bytes of a file and the parts of an edit are what their types say of them. Each call goes over a value, and
//! changes nothing: what it shows stands in its contract.

ghost use Rattle.std.specs.Prelude.{◌≡◌, length};
ghost use Rattle.std.specs.List.{AllByRecursion};
ghost use Rattle.graph_facts.specs.OfTypes.{AreBytes, CellOfType, EditOfTypes, OptSigOfType, ResourceOfType};

use node_model::{Cell, Edit, OptSig, ResourceValue};

/// The items of a slice of bytes are below 256.
pub fn are_bytes(bytes: &[u8])
    ensures { AreBytes bytes.now }
{
    for byte in bytes {
        let _byte = *byte;
    }
}

/// An array of sixteen bytes has sixteen bytes.
fn sixteen(guid: [u8; 16])
    ensures { length guid ≡ 16 }
{}

/// A cell's GUID has sixteen bytes.
fn cell_of_type(cell: &Cell)
    ensures { CellOfType cell.now }
{
    if let Cell::Guid(guid) = cell {
        sixteen(*guid);
    }
}

/// So has that of each of these cells.
fn cells_of_type(cells: &[Cell])
    ensures { AllByRecursion CellOfType cells.now }
{
    for cell in cells {
        cell_of_type(cell);
    }
}

/// A signature, where there is one, can be spelled (ECMA-335 II.23.2).
fn opt_sig_of_type(sig: &OptSig)
    ensures { OptSigOfType sig.now }
{
    if let OptSig::Is(sig) = sig {
        let _tree = sig.tree();
    }
}

/// An offset is below 2^32.
fn resource_of_type(value: &ResourceValue)
    ensures { ResourceOfType value.now }
{
    if let ResourceValue::Elsewhere(offset) = value {
        let _offset = *offset;
    }
}

/// GUIDs of an edit have sixteen bytes, its signatures can be spelled, and offsets of resources are below 2^32.
pub fn edit_of_types(edit: &Edit)
    ensures { EditOfTypes edit.now }
{
    match edit {
        Edit::Set { cell, .. } => cell_of_type(cell),
        Edit::SetSig { sig, .. } => {
            let _tree = sig.tree();
        }
        Edit::SetResource { value, .. } => resource_of_type(value),
        Edit::Add { cells, sig, .. } | Edit::Insert { cells, sig, .. } => {
            cells_of_type(cells.as_slice());
            opt_sig_of_type(sig);
        }
        _ => {}
    }
}
