//! Laws about the definitions, each proved as the contract of a function that does nothing.
ghost use Rattle.tt_tsv.specs.ArrayLaws.{HeldArrayLaw, HeldWaitsLaw};

/// A held array answers nobody else.
pub fn held_arrays_answer_nobody_else()
    ensures { HeldWaitsLaw }
{}

/// No call of another thread changes a held array.
pub fn held_arrays_are_closed()
    ensures { HeldArrayLaw }
{}
