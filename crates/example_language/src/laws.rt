//! What jobs of the language come to by its plans, as the contract of a function that does nothing.
ghost use Rattle.example_language.specs.Greatest.{WorkedPlans};

/// What some jobs stop at, and what they finish with.
pub fn worked_plans()
    ensures { WorkedPlans }
{}
