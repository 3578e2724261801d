//! Laws about the definitions, each proved as the contract of a function that does nothing.
ghost use Rattle.laws_serving.specs.Serving.{DeliverLaw, DutyLaw, FirstLaw, ServingLaw};

/// A plan serves what it takes, hands over what it owes as the last thing that it does, and hands over nothing else.
pub fn plans_keep_duties()
    ensures { DutyLaw }
{}

/// At first a thread serves nothing.
pub fn threads_serve_nothing_first()
    ensures { FirstLaw }
{}

/// What a thread serves changes by replies alone, and as they say.
pub fn replies_change_what_is_served()
    ensures { ServingLaw }
{}

/// What a thread hands over is what it serves innermost.
pub fn threads_hand_over_what_they_serve()
    ensures { DeliverLaw }
{}
