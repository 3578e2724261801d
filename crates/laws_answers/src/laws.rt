//! Laws about the definitions, each proved as the contract of a function that does nothing.
ghost use Rattle.laws_answers.specs.Answered.{AlwaysAsksOnLaw, AnswersExistLaw, NamesStandLaw};
ghost use Rattle.laws_answers.specs.Circles.{CirclesLaw};
ghost use Rattle.laws_answers.specs.Pure.{PureAnswersLaw};

/// Each command without variables has an outcome, whatever its words are.
pub fn pure_commands_have_outcomes()
    ensures { PureAnswersLaw }
{}

/// In what a thread may keep, each name stands for something.
pub fn names_stand()
    ensures { NamesStandLaw }
{}

/// All that a thread may want of what it keeps is answered.
pub fn answers_exist()
    ensures { AnswersExistLaw }
{}

/// Each thread asks something first, and after each reply with which it goes on.
pub fn threads_always_ask_on()
    ensures { AlwaysAsksOnLaw }
{}

/// Links in a circle would have no answer, and no thread may keep them.
pub fn circles_are_not_kept()
    ensures { CirclesLaw }
{}
