//! Laws about the definitions, each proved as the contract of a function that does nothing.
ghost use Rattle.laws_threads.specs.ThreadCount.{ThreadCountLaw};
ghost use Rattle.laws_threads.specs.ThreadExamples.{WorkedThreads};

/// At most 1,000 threads live at once, and there are at most 998 more of them than actions.
pub fn threads_are_bounded()
    ensures { ThreadCountLaw }
{}

/// How many threads runs of the examples make.
pub fn worked_threads()
    ensures { WorkedThreads }
{}
