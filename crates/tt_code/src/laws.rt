//! Worked examples of the definitions, proved as the contract of a function that does nothing.
ghost use Rattle.tt_code.specs.WorkedNeeds.{WorkedNeeds};

/// What words and expressions need, and what they come to.
pub fn worked_needs()
    ensures { WorkedNeeds }
{}
