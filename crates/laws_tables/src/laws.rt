//! Laws about the definitions, each proved as the contract of a function that does nothing.
ghost use Rattle.laws_tables.specs.Fitting.{FittingLaw};
ghost use Rattle.laws_tables.specs.Refusals.{RefusalLaw};

/// What a request is answered, in any state in which it can be, is of a kind that its row of the table lists.
pub fn answers_fit()
    ensures { FittingLaw }
{}

/// What a command asks first is never refused with the empty text, which is for what no command asks.
pub fn refusals_say_why()
    ensures { RefusalLaw }
{}
