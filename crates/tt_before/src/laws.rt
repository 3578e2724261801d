//! A law about the definitions, proved as the contract of a function that does nothing.
ghost use Rattle.tt_before.specs.RaceLaws.{OneListLaw};

/// There is one list of all races.
pub fn there_is_one_list()
    ensures { OneListLaw }
{}
