//! Laws: a function without a body states what holds of the definitions.

ghost use Rattle.pe_write.specs.Reread.{FactsAreReread, ImagesAreReread, PartsAreReread, ResourcesAreReread};

/// An image that was written is not refused; its streams and its section are those that were given.
pub fn images_are_reread()
    ensures { ImagesAreReread }
{}

/// Its facts are those that were given, without the flag of a signature.
pub fn facts_are_reread()
    ensures { FactsAreReread }
{}

/// Where its contents were laid as parts, each part is read from the RVA of its place.
pub fn parts_are_reread()
    ensures { PartsAreReread }
{}

/// Its resources count from the RVA that was given.
pub fn resources_are_reread()
    ensures { ResourcesAreReread }
{}
