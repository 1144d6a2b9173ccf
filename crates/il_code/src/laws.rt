//! A law of the definitions, for the crates above: the contract of a function that does nothing.

ghost use Rattle.il_code.specs.Decoded.{SpellsAlone};

/// `body_at` finds a body exactly where the bytes spell that body (ECMA-335 II.25.4 and III).
pub fn spells_alone()
    ensures { SpellsAlone }
{}
