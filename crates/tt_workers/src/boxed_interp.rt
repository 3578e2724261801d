ghost use Rattle.std.specs.Prelude.{◌≡◌, [], IfOk, IsTrue, OnOk};
ghost use Rattle.tt_interp.specs.Interps as interps;

use std::alloc::Global;
use std::marker::Model;
use tt_calls::{Reply, Request, Start};
use tt_interp::{Interp, Setup};
use tt_text::NoMemory;

/// The interpreter of a thread, behind a pointer, so that what holds it is small and a move costs little. Contracts see
/// the interpreter.
#[derive(Debug, Drop)]
pub struct BoxedInterp {
    inside: Box<Interp>,
    // How many units it spent when it was resumed last.
    spent: u64,
}

impl Model for BoxedInterp {
    ghost use Rattle.tt_interp.specs.Interps.{Interpreter};

    ghost Value = { Interpreter };

    ghost view = { λ boxed. boxed.inside.value };
}

impl BoxedInterp {
    /// The interpreter of a thread of this number that begins so. It has evaluated nothing.
    ///
    /// `NoMemory` if memory is refused.
    pub(crate) fn new(
        alloc: Global,
        start: &Start,
        number: u32,
        setup: &Setup,
    ) -> Result<Self, NoMemory>
        ensures stands { IfOk result (λ interp. interps.StandsFor interp setup.now number start.now) }
        ensures fresh { IfOk result (λ interp. IsTrue (interps.is_fresh interp.standing)) }
    {
        let interp = Interp::new(alloc, start, number, setup)?;
        Ok(BoxedInterp {
            inside: Box::new(alloc, interp)?,
            spent: 0,
        })
    }

    /// Evaluates up to the next request: at first without a reply, and then with the reply to the request.
    ///
    /// `NoMemory` if memory is refused; then the interpreter is only fit to be dropped.
    pub(crate) fn resume(&mut self, reply: Option<Reply>) -> Result<(), NoMemory>
        requires fits { IsTrue (interps.fits self.old.standing reply) }
        ensures stands { OnOk result (interps.GoesOn self.new self.old reply) }
        ensures halts { OnOk result (IsTrue (interps.is_halted self.new.standing)) }
    {
        let before = self.inside.units();
        self.inside.resume(reply)?;
        self.spent = self.inside.units().saturating_sub(before);
        Ok(())
    }

    /// Whether it can be resumed with this: at first without a reply, and then with one, but after its end with
    /// nothing.
    pub(crate) fn can_resume(&self, reply: &Option<Reply>) -> bool
        ensures fits { result ≡ interps.fits self.now.standing reply.now }
    {
        self.inside.can_resume(reply)
    }

    /// How many units it spent when it was resumed last. No clause says it: whom a worker wakes is free.
    pub(crate) fn spent(&self) -> u64 {
        self.spent
    }

    /// What the thread asks next: a request, or after its evaluation its end.
    pub(crate) fn request(&self) -> &Request
        requires halted { IsTrue (interps.is_halted self.now.standing) }
        ensures is { result.now ≡ interps.request_of self.now.standing }
    {
        self.inside.request()
    }
}
