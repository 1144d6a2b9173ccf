//! Laws, for the crates above. Each is the contract, or the bound, of a function that does nothing.

ghost use Rattle.node_read.specs.Image.{ImageIsNotRefused};

use crate::image::Image;

/// A file that is an image has no refusal, and no file has two.
pub fn image_is_not_refused()
    ensures { ImageIsNotRefused }
{}

/// An image may be handed to another thread, and threads may share it.
pub fn image_is_shared() {
    is_shared::<Image>();
}

fn is_shared<T: Send + Sync>() {}
