//! A law: a function without a body, whose contract holds of all values.

ghost use Rattle.write_plan.specs.Planned.{NumbersAreOneToOne};

/// The new numbers of the kept rows of each table go from 1 to their count, and no two rows have the same.
pub fn numbers_are_one_to_one()
    ensures { NumbersAreOneToOne }
{}
