//! Laws about the definitions, each proved as the contract of a function that does nothing.
ghost use Rattle.laws_sends.specs.SendExamples.{WorkedSends};
ghost use Rattle.laws_sends.specs.Sends.{SendLaw};

/// A script begins at most once, at the thread that it was posted to, in order, and has one answer: what it came to, or
/// that its thread has ended.
pub fn sends_are_kept()
    ensures { SendLaw }
{}

/// What happens in runs of the examples.
pub fn worked_sends()
    ensures { WorkedSends }
{}
