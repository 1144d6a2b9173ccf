//! Functions without bodies: each contract is a law over the definitions.

ghost use Rattle.std.specs.Prelude.{◌≡◌, List, ℕ};
ghost use Rattle.attr_blob.specs.Attrs.{ReadsAttr};
ghost use Rattle.attr_blob.specs.Decoded.{UnknownExactly, ValueExactly};
ghost use Rattle.attr_blob.specs.declared.value.ArgType.{ArgType};
ghost use Rattle.attr_blob.specs.declared.value.AttrValue.{AttrValue};
ghost use Rattle.attr_blob.specs.declared.value.EnumWidth.{EnumWidth};

/// What a blob says, by the bytes, is a value exactly where that value spells the whole blob, and the name of an enum
/// exactly where its width is needed next (ECMA-335 II.23.3).
pub fn attr_is_what_is_spelled()
    ensures value { ValueExactly }
    ensures unknown { UnknownExactly }
{}

/// At most one value with given parameter types and widths spells a blob.
pub fn attr_has_one_reading()
    ensures { (params : List ArgType) (widths : List EnumWidth) (blob : List ℕ) (a b : AttrValue)
        → ReadsAttr params widths a blob → ReadsAttr params widths b blob → a ≡ b }
{}
