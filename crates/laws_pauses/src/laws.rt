//! Laws about the definitions, each proved as the contract of a function that does nothing.
ghost use Rattle.laws_pauses.specs.NextRequest.{NextRequestLaw};
ghost use Rattle.laws_pauses.specs.PauseExamples.{WorkedPauses};
ghost use Rattle.laws_pauses.specs.Threads.{AsksOnLaw};

/// Whatever an evaluation gets, it comes to its next request or to its end.
pub fn evaluations_come_to_requests()
    ensures { NextRequestLaw }
{}

/// What a loop that goes on for ever asks for.
pub fn worked_pauses()
    ensures { WorkedPauses }
{}

/// If all that a thread wants of what it keeps is answered, it asks something next.
pub fn threads_ask_on()
    ensures { AsksOnLaw }
{}
