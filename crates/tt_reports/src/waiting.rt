use std::marker::Model;

/// A thread that waits. Contracts see it with the list of the others.
#[derive(Debug, Drop)]
pub struct Waiting {
    pub thread: u32,
    /// The threads that it waits for, by number.
    pub others: Vec<u32>,
}

impl Model for Waiting {
    ghost use Rattle.tt_waits.specs.Waiting.{Waiting as AnyWaiting};

    ghost Value = { AnyWaiting };

    ghost view = { λ waiting. record { thread = waiting.thread; others = waiting.others.items } };
}
