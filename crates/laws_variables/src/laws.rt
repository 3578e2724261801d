//! Laws about the definitions, each proved as the contract of a function that does nothing.
ghost use Rattle.laws_variables.specs.VariableEvents.{VariableLaw};
ghost use Rattle.laws_variables.specs.VariableExamples.{WorkedVariables};
ghost use Rattle.laws_variables.specs.VariableNames.{VariableNameLaw};

/// A variable that is to be set to an answer is set by an event: in the queue of the thread that posted the script, under
/// the name that this gave, with that answer.
pub fn variables_are_set()
    ensures { VariableLaw }
{}

/// Its name is the one that the thread asked for when it sent the script.
pub fn variables_have_their_names()
    ensures { VariableNameLaw }
{}

/// What threads are answered in runs of the examples.
pub fn worked_variables()
    ensures { WorkedVariables }
{}
