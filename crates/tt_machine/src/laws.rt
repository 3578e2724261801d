//! What holds of the machine.
ghost use Rattle.tt_machine.specs.MachineLaws.{BarredLaw, OneMoreLaw, OneRunLaw, OneStepLaw};
ghost use Rattle.tt_machine.specs.RunActions.{FewChannelsLaw, OrderlyStepLaw, RunActionsLaw};
ghost use Rattle.tt_machine.specs.WaitingLaws.{OneWaitingLaw, WaitingGrowsLaw};

/// A step of a thread leads to one machine.
pub fn one_step()
    ensures { OneStepLaw }
{}

/// A thread that is barred takes no step.
pub fn barred()
    ensures { BarredLaw }
{}

/// A schedule leads from a machine to one machine.
pub fn one_run()
    ensures { OneRunLaw }
{}

/// A schedule with one step more leads one step further.
pub fn one_more()
    ensures { OneMoreLaw }
{}

/// A run is a list of actions on what the threads share.
pub fn runs_are_actions()
    ensures { RunActionsLaw }
{}

/// Each step of a run keeps to the laws of arrays, locks, channels and pipes.
pub fn steps_are_orderly()
    ensures { OrderlyStepLaw }
{}

/// A step draws two numbers of channels at most.
pub fn channels_are_few()
    ensures { FewChannelsLaw }
{}

/// There is one list of the threads that wait.
pub fn one_list_of_waiting()
    ensures { OneWaitingLaw }
{}

/// The list of the threads that wait grows thread by thread.
pub fn waiting_grows()
    ensures { WaitingGrowsLaw }
{}
