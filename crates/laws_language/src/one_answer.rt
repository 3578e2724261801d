//! Laws about the definitions, each proved as the contract of a function that does nothing.
ghost use Rattle.laws_language.specs.OneAnswer.{AnswersOnceLaw, BeginsOnceLaw, OneRequestLaw, PureOnceLaw, RunsOnceLaw};

/// A command that answers by its words alone has one outcome.
pub fn pure_commands_have_one_outcome()
    ensures { PureOnceLaw }
{}

/// Words come to one answer, and one thing is kept then.
pub fn words_come_to_one_answer()
    ensures { RunsOnceLaw }
{}

/// An evaluation gets one thing for what it wants, and one thing is kept then.
pub fn an_evaluation_gets_one_thing()
    ensures { AnswersOnceLaw }
{}

/// A thread keeps one thing at its start.
pub fn a_thread_begins_in_one_way()
    ensures { BeginsOnceLaw }
{}

/// A thread asks one request next, and serves the same posts then.
pub fn a_thread_asks_one_request_next()
    ensures { OneRequestLaw }
{}
