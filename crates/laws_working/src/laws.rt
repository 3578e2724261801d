//! Laws about the definitions, each proved as the contract of a function that does nothing.
ghost use Rattle.laws_working.specs.TurnExamples.{WorkedTurns};
ghost use Rattle.laws_working.specs.Turns.{TurnLaw};
ghost use Rattle.laws_working.specs.WorkedRuns.{AskingLaw, HandingInLaw, WorkedLaw};

/// A thread takes a job as a worker of that pool alone, with none in hand, and hands in the one that it has.
pub fn workers_take_turns()
    ensures { TurnLaw }
{}

/// In every run jobs are asked for as workers do.
pub fn runs_ask_as_workers()
    ensures { AskingLaw }
{}

/// In every run what a thread hands in is a job that it has begun.
pub fn runs_hand_in_what_they_began()
    ensures { HandingInLaw }
{}

/// In every run each job is begun by a worker of its pool, and is not left behind.
pub fn runs_work_their_jobs()
    ensures { WorkedLaw }
{}

/// What a worker asks that is an example.
pub fn worked_turns()
    ensures { WorkedTurns }
{}
