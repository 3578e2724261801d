//! Laws about the definitions, each proved as the contract of a function that does nothing.
ghost use Rattle.laws_caught.specs.CaughtLaws.{CaughtStayLaw, DeadlockLaw};
ghost use Rattle.laws_caught.specs.WaitLaws.{AnswerWaitLaw, ArrayWaitLaw, EndWaitLaw, LineWaitLaw};
ghost use Rattle.laws_caught.specs.WaitLaws.{LockWaitLaw, MoveWaitLaw};

/// Who waits for the end of a thread waits on, whatever others do.
pub fn who_waits_for_an_end_waits_on()
    ensures { EndWaitLaw }
{}

/// Who waits for an array waits on while its holder does nothing.
pub fn who_waits_for_an_array_waits_on()
    ensures { ArrayWaitLaw }
{}

/// Who waits for an answer waits on while the thread that is to answer does nothing.
pub fn who_waits_for_an_answer_waits_on()
    ensures { AnswerWaitLaw }
{}

/// Who waits for a channel to move waits on while the thread that it moves to does nothing.
pub fn who_waits_for_a_move_waits_on()
    ensures { MoveWaitLaw }
{}

/// Who waits for a lock waits on while a holder does nothing.
pub fn who_waits_for_a_lock_waits_on()
    ensures { LockWaitLaw }
{}

/// Who waits for a line of a pipe waits on while the thread that owns its write end does nothing.
pub fn who_waits_for_a_line_waits_on()
    ensures { LineWaitLaw }
{}

/// Threads that wait for one another take no step in any run that goes on from there.
pub fn the_caught_stay_caught()
    ensures { CaughtStayLaw }
{}

/// Threads that a report says are in a deadlock take no step in any run that goes on from there.
pub fn a_deadlock_stays()
    ensures { DeadlockLaw }
{}
