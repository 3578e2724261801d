//! A law about the definitions, proved as the contract of a function that does nothing.
ghost use Rattle.tt_shared.specs.BlockingLaws.{BlockersLaw};

/// Who waits, waits for exactly the threads of the table that live.
pub fn blockers_are_exact()
    ensures { BlockersLaw }
{}
