//! Laws about the definitions, each proved as the contract of a function that does nothing.
ghost use Rattle.tt_waits.specs.WaitLaws.{CircleLaw, NoCircleLaw, OneListLaw};

/// Each caught thread waits for one that is caught.
pub fn the_caught_wait_for_the_caught()
    ensures { CircleLaw }
{}

/// The list is empty exactly if no thread is caught.
pub fn without_circle_the_list_is_empty()
    ensures { NoCircleLaw }
{}

/// There is one list of the caught threads.
pub fn there_is_one_list()
    ensures { OneListLaw }
{}
