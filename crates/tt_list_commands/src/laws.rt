//! A law about the definitions, proved as the contract of a function that does nothing.
ghost use Rattle.tt_list_commands.specs.SortFunction.{SortLaw};

/// Sorting a list has one answer, that of a function.
pub fn sorting_has_one_answer()
    ensures { SortLaw }
{}
