//! Laws about the definitions, each proved as the contract of a function that does nothing.
ghost use Rattle.laws_language.specs.ScriptSteps.{OneListLaw, StepsLaw};

/// The steps of a script are its commands, each where the one before it ended, up to the first that can't be read.
pub fn steps_are_commands()
    ensures { StepsLaw }
{}

/// A text has one list of commands.
pub fn one_list()
    ensures { OneListLaw }
{}
