//! What holds of the definitions.
ghost use Rattle.tt_generate.specs.Workload.{JobsLaw};

/// A workload has as many jobs as its size says, each with a key below 8 and a value below 1000.
pub fn jobs_are_as_many()
    ensures { JobsLaw }
{}
