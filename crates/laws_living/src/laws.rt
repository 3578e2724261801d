//! Laws about the definitions, each proved as the contract of a function that does nothing.
ghost use Rattle.laws_living.specs.Living.{LivingLaw};

/// Until the run is over, a thread that lives can take a step, or waits for what it asks.
pub fn living_threads_ask()
    ensures { LivingLaw }
{}
