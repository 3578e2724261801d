ghost use Rattle.std.specs.Prelude.{◌≡◌, IfOk, OnOk, IsTrue, []};
ghost use Rattle.tt_kept.specs.Asking.{end_by, goes_on};
ghost use Rattle.tt_interp.specs.Interps as interps;

use crate::settling::resumed;
use crate::{Kept, Paused, Setup};
use std::alloc::Global;
use std::marker::Model;
use std::mem;
use tt_calls::{Boxed, Code, Reply, Request, Start};
use tt_outcomes::Ending;
use tt_text::{NoMemory, Text};

/// Where the evaluation of a thread stands.
#[derive(Debug, Drop)]
pub enum Standing {
    /// It has not begun: the start, the thread's number and how many units it may spend.
    Fresh {
        start: Start,
        me: u32,
        limit: u64,
    },
    /// It waits for the reply to this.
    Asks {
        stack: Paused,
        request: Boxed<Request>,
    },
    /// It has ended so.
    Over {
        stack: Paused,
        ending: Ending,
    },
}

/// The interpreter of a thread. Contracts see what it keeps and where it stands, and say of it what its thread asks
/// after further replies.
#[derive(Debug, Drop)]
pub struct Interp {
    kept: Kept,
    standing: Standing,
    // What is asked when all is over.
    last: Request,
    alloc: Global,
}

impl Model for Interp {
    ghost use Rattle.tt_interp.specs.Interps.{Interpreter, IsStanding};

    ghost Value = { Interpreter };

    ghost view = { λ interp. record { kept = interp.kept; standing = interp.standing } };

    ghost invariant = { λ interp. IsStanding interp.standing interp.last };
}

impl Interp {
    /// The interpreter of a thread of this number that begins so. It has evaluated nothing.
    ///
    /// `NoMemory` if memory is refused.
    pub fn new(alloc: Global, start: &Start, me: u32, setup: &Setup) -> Result<Self, NoMemory>
        ensures stands { IfOk result (λ interp. interps.StandsFor interp setup.now me start.now) }
        ensures fresh { IfOk result (λ interp. IsTrue (interps.is_fresh interp.standing)) }
    {
        let kept = Kept::new(alloc, me, setup)?;
        let start = start.copy()?;
        Ok(Interp {
            kept,
            standing: Standing::Fresh {
                start,
                me,
                limit: setup.limit,
            },
            last: Request::End { code: 0 },
            alloc,
        })
    }

    /// Evaluates up to the next request: at first without a reply, and then with the reply to the request.
    ///
    /// `NoMemory` if memory is refused; then the interpreter is only fit to be dropped.
    pub fn resume(&mut self, reply: Option<Reply>) -> Result<(), NoMemory>
        requires fits { IsTrue (interps.fits self.old.standing reply) }
        ensures stands { OnOk result (interps.GoesOn self.new self.old reply) }
        ensures halts { OnOk result (IsTrue (interps.is_halted self.new.standing)) }
    {
        let gone = Standing::gone(self.alloc);
        let standing = mem::replace(&mut self.standing, gone);
        let standing = resumed(self.alloc, &mut self.kept, standing, reply)?;
        self.last = last_of(&standing);
        self.standing = standing;
        Ok(())
    }

    /// Whether it can be resumed with this: at first without a reply, and then with one, but after its end with
    /// nothing.
    pub fn can_resume(&self, reply: &Option<Reply>) -> bool
        ensures fits { result ≡ interps.fits self.now.standing reply.now }
    {
        match (&self.standing, reply) {
            (Standing::Fresh { .. }, None) => true,
            (Standing::Asks { request, .. }, Some(_)) => goes_on(request.get()),
            _ => false,
        }
    }

    /// How many units the thread has spent: one for each command, each turn of a loop, and each event that was asked
    /// for.
    pub fn units(&self) -> u64
        ensures units { result ≡ interps.units_of self.now.standing }
    {
        match &self.standing {
            Standing::Fresh { .. } => 0,
            Standing::Asks { stack, .. } | Standing::Over { stack, .. } => stack.units(),
        }
    }

    /// What the thread asks next: a request, or after its evaluation its end.
    pub fn request(&self) -> &Request
        requires halted { IsTrue (interps.is_halted self.now.standing) }
        ensures asks { interps.InterpAsks self.now [] result.now (interps.serving_of self.now.standing) }
        ensures is { result.now ≡ interps.request_of self.now.standing }
    {
        match &self.standing {
            Standing::Asks { request, .. } => request.get(),
            Standing::Over { .. } => &self.last,
            Standing::Fresh { .. } => &self.last,
        }
    }
}

impl Standing {
    fn gone(alloc: Global) -> Self
        ensures { IsTrue (interps.is_fresh result) }
    {
        let start = Start::Script(Text::new(alloc));
        Standing::Fresh {
            start,
            me: 0,
            limit: 0,
        }
    }
}

fn goes_on(request: &Request) -> bool
    ensures { result ≡ goes_on request.now }
{
    match request {
        Request::End { .. } | Request::Exit { .. } => false,
        _ => true,
    }
}

// The last request of a thread whose evaluation stands there; before its end that says nothing.
fn last_of(standing: &Standing) -> Request
    requires { IsTrue (interps.is_halted standing.now) }
    ensures { interps.IsStanding standing.now result }
{
    match standing {
        Standing::Over { ending, .. } => end_of(ending.code()),
        Standing::Fresh { .. } | Standing::Asks { .. } => Request::End { code: 0 },
    }
}

fn end_of(code: Code) -> Request
    ensures { result ≡ end_by code }
{
    match code {
        Code::Fine => Request::End { code: 0 },
        Code::Failed | Code::Returned | Code::Broke | Code::Continued => Request::End { code: 1 },
    }
}
