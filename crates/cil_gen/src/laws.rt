//! Laws of the small image and of the edits, for the crates above. Each is the contract of a function that does nothing.

ghost use Rattle.std.specs.Prelude.{IsOk};
ghost use Rattle.pe_image.specs.Layout.{pe_layout};
ghost use Rattle.pe_image.specs.Streams.{stream};
ghost use Rattle.pe_image.specs.declared.stream.StreamName.TheVariants.{Tables};
ghost use Rattle.md_schema.specs.Layout.{IsWhole};
ghost use Rattle.cil_gen.specs.Done.{EachIsDone, EachLooksAtOne};
ghost use Rattle.cil_gen.specs.SmallImage.{small_image};

/// The small image is one: it has a layout, and its tables are whole. So no file of these bytes is refused.
pub fn small_image_opens()
    ensures laid { IsOk (pe_layout small_image) }
    ensures whole { IsWhole (stream small_image Tables) }
{}

/// Over the small image each of the edits that `gen_edits` answers is done after those before it, and makes the row that
/// was counted on.
pub fn each_is_done()
    ensures { EachIsDone }
{}

/// There each of them looks at one key: the list of the image's types, or a key of a row that an edit before it made.
pub fn each_looks_at_one()
    ensures { EachLooksAtOne }
{}
