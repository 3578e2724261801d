//! Laws about the definitions, each proved as the contract of a function that does nothing.
ghost use Rattle.laws_runs.specs.Lawful.{LawfulLaw};
ghost use Rattle.laws_runs.specs.Serving.{ServedLaw};

/// What a thread serves in a run are the scripts that it has begun and not handed over.
pub fn threads_serve_what_they_began()
    ensures { ServedLaw }
{}

/// Every run keeps to the laws of sends, arrays, locks, channels and pipes.
pub fn runs_are_lawful()
    ensures { LawfulLaw }
{}
