//! The interpreters of the threads.
ghost use Rattle.std.specs.Prelude.{◌≡◌, ◌+◌, [], Some, IfOk, IfSome, IsSome, OnOk, OnErr, length};
ghost use Rattle.std.specs.Option.{option_copied};
ghost use Rattle.tt_core.specs.inside.Crew.{AllBegin, BeginsLast, IsHalted, IsReplied, Resumes};
ghost use Rattle.tt_core.specs.inside.Crew.{TakesReply, asked_by, interp_of};

use std::alloc::Global;
use std::marker::Model;
use tt_calls::{Reply, Request, Start};
use tt_devices::{Sink, Source};
use tt_interp::{Interp, Setup};
use tt_places::Places;
use tt_run::Desk;
use tt_text::NoMemory;

/// The interpreters of the threads, by number from 1, each at what its thread asks; a thread that has ended has none.
#[derive(Drop)]
pub(crate) struct Crew {
    interps: Places<Option<Interp>>,
}

impl Model for Crew {
    ghost use Rattle.std.specs.List.{AllByRecursion};
    ghost use Rattle.tt_core.specs.inside.Crew.{IsHalted, Places as AllPlaces};

    ghost Value = { AllPlaces };

    ghost view = { λ crew. crew.interps };

    ghost invariant = { λ crew. AllByRecursion IsHalted crew.interps };
}

impl Crew {
    /// No threads.
    pub(crate) fn new(alloc: Global) -> Self
        ensures { result ≡ [] }
    {
        Crew {
            interps: Places::new(alloc),
        }
    }

    /// How many threads there were.
    pub(crate) fn len(&self) -> u32
        ensures { result ≡ length self.now }
    {
        self.interps.len()
    }

    /// The thread after the last begins, with this number.
    pub(crate) fn begin(
        &mut self,
        alloc: Global,
        start: &Start,
        number: u32,
        setup: &Setup,
    ) -> Result<(), NoMemory>
        requires next { number ≡ length self.old + 1 }
        ensures begins { OnOk result
            (BeginsLast setup.now (record { start = start.now; replies = [] }) self.old self.new) }
    {
        let mut interp = Interp::new(alloc, start, number, setup)?;
        interp.resume(None)?;
        self.interps.push(Some(interp))?;
        Ok(())
    }

    /// What a thread asks that has not ended. It takes no memory.
    pub(crate) fn request(&self, number: u32) -> Option<&Request>
        ensures asks { option_copied result ≡ asked_by self.now number }
    {
        match self.interps.get(number) {
            Some(Some(interp)) => Some(interp.request()),
            Some(None) | None => None,
        }
    }

    /// A thread that has not ended gets the reply to what it asks.
    ///
    /// `NoMemory` if memory is refused; then nothing is said of the thread.
    pub(crate) fn reply(&mut self, number: u32, reply: Reply) -> Result<(), NoMemory>
        requires there { IsSome (interp_of self.old number) }
        ensures replied { OnOk result (IsReplied number reply self.old self.new) }
    {
        go_on(self.interps.place_mut(number), reply)
    }

    /// Threads that were made begin.
    ///
    /// `NoMemory` if memory is refused.
    pub(crate) fn begin_all<S: Source, K: Sink, E: Sink>(
        &mut self,
        alloc: Global,
        desk: &Desk<S, K, E>,
        setup: &Setup,
    ) -> Result<(), NoMemory>
        ensures begin { OnOk result (AllBegin setup.now desk.now.shared.rows self.old self.new) }
    {
        while self.len() < desk.thread_count() {
            let number = self.len() + 1;
            self.begin(alloc, desk.start_of(number), number, setup)?;
        }
        Ok(())
    }
}

/// An interpreter goes on with a reply; if its thread has ended, or memory is refused, there is none any more.
fn go_on(place: &mut Option<Interp>, reply: Reply) -> Result<(), NoMemory>
    requires there { IsSome place.old }
    ensures goes { OnOk result (IfSome place.old (λ interp. TakesReply interp reply place.new)) }
    ensures halts { IsHalted place.new }
{
    match place {
        Some(interp) => match resume(interp, reply) {
            Ok(true) => Ok(()),
            Ok(false) => {
                *place = None;
                Ok(())
            }
            Err(error) => {
                *place = None;
                Err(error)
            }
        },
        None => Ok(()),
    }
}

/// An interpreter goes on with a reply, unless its thread has ended.
fn resume(interp: &mut Interp, reply: Reply) -> Result<bool, NoMemory>
    ensures goes { IfOk result (λ goes. Resumes goes interp.old reply interp.new) }
{
    let reply = Some(reply);
    if !interp.can_resume(&reply) {
        return Ok(false);
    }
    interp.resume(reply)?;
    Ok(true)
}
