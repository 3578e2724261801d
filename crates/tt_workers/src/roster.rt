//! The places of the threads.
ghost use Rattle.std.specs.Prelude.{◌≡◌, ◌+◌, ◌≤◌, [], ℕ, Some, IfNone, IfSome, OnOk, IsSome, IsTrue, IsFalse, length};
ghost use Rattle.std.specs.Option.{option_copied};
ghost use Rattle.tt_calls.specs.Numbers.{at_number};
ghost use Rattle.tt_core.specs.inside.Crew.{AllMade};
ghost use Rattle.tt_interp.specs.Interps as interps;
ghost use Rattle.tt_workers.specs.inside.Places.{IsFit, IsFreshPlace, asked_at, can_go, is_fresh_at};
ghost use Rattle.tt_workers.specs.inside.Rosters.{BeginsAt, HandsOut, HandsOutFresh, TakesParked};
ghost use Rattle.tt_workers.specs.inside.Rosters.{is_elsewhere_at, parked_at};

use crate::boxed_interp::BoxedInterp;
use crate::next::Task;
use crate::place::Place;
use std::alloc::Global;
use std::marker::Model;
use std::mem;
use tt_calls::{Reply, Request, Start};
use tt_devices::{Sink, Source};
use tt_interp::Setup;
use tt_places::Places;
use tt_run::Desk;
use tt_text::NoMemory;

/// The places of the threads, by number from 1.
#[derive(Drop)]
pub(crate) struct Roster {
    places: Places<Place>,
}

impl Model for Roster {
    ghost use Rattle.std.specs.List.{AllByRecursion};
    ghost use Rattle.std.specs.Prelude.{List};
    ghost use Rattle.tt_workers.specs.declared.place.Place.{Place};
    ghost use Rattle.tt_workers.specs.inside.Places.{IsFit};

    ghost Value = { List Place };

    ghost view = { λ roster. roster.places };

    ghost invariant = { λ roster. AllByRecursion IsFit roster.places };
}

impl Roster {
    /// No threads.
    pub(crate) fn new(alloc: Global) -> Self
        ensures { result ≡ [] }
    {
        Roster {
            places: Places::new(alloc),
        }
    }

    /// How many threads there were.
    pub(crate) fn len(&self) -> u32
        ensures { result ≡ length self.now }
    {
        self.places.len()
    }

    /// The thread after the last is there, fresh.
    pub(crate) fn begin(
        &mut self,
        alloc: Global,
        start: &Start,
        number: u32,
        setup: &Setup,
    ) -> Result<(), NoMemory>
        requires next { number ≡ length self.old + 1 }
        ensures begins { OnOk result (BeginsAt setup.now start.now self.old self.new) }
    {
        let interp = BoxedInterp::new(alloc, start, number, setup)?;
        self.places.push(Place::Fresh(interp))?;
        Ok(())
    }

    /// Threads that were made are there, fresh.
    ///
    /// `NoMemory` if memory is refused.
    pub(crate) fn begin_all<S: Source, K: Sink, E: Sink>(
        &mut self,
        alloc: Global,
        desk: &Desk<S, K, E>,
        setup: &Setup,
    ) -> Result<(), NoMemory>
        ensures begin { OnOk result (AllMade (IsFreshPlace setup.now) desk.now.shared.rows self.old self.new) }
    {
        while self.len() < desk.thread_count() {
            let number = self.len() + 1;
            self.begin(alloc, desk.start_of(number), number, setup)?;
        }
        Ok(())
    }

    /// What a parked thread asks. It takes no memory.
    pub(crate) fn request(&self, number: u32) -> Option<&Request>
        ensures asks { option_copied result ≡ asked_at (at_number self.now number) }
    {
        match self.places.get(number) {
            Some(Place::Parked(interp)) => Some(interp.request()),
            Some(Place::Fresh(_) | Place::Out(_) | Place::Gone) | None => None,
        }
    }

    /// Whether a thread can go on. It takes no memory.
    fn can_go<S: Source, K: Sink, E: Sink>(&self, desk: &Desk<S, K, E>, number: u32) -> bool
        ensures { result ≡ can_go desk.now self.now number }
    {
        match self.places.get(number) {
            Some(Place::Fresh(_)) => true,
            Some(Place::Parked(interp)) => desk.enabled(number, interp.request()),
            Some(Place::Out(_) | Place::Gone) | None => false,
        }
    }

    /// The first thread from this number on that can go on. It takes no memory.
    fn first_from<S: Source, K: Sink, E: Sink>(
        &self,
        desk: &Desk<S, K, E>,
        from: u32,
    ) -> Option<u32>
        ensures found { IfSome result (λ number. IsTrue (can_go desk.now self.now number)) }
        ensures none { IfNone result ((number : ℕ) → from ≤ number → IsFalse (can_go desk.now self.now number)) }
    {
        for number in from..=self.len() {
            if self.can_go(desk, number) {
                return Some(number);
            }
        }
        None
    }

    /// A thread that can go on, or `None` exactly if none can. Which one is free: it looks above this number, and then
    /// from the first on. It takes no memory.
    pub(crate) fn next_after<S: Source, K: Sink, E: Sink>(
        &self,
        desk: &Desk<S, K, E>,
        after: u32,
    ) -> Option<u32>
        ensures found { IfSome result (λ number. IsTrue (can_go desk.now self.now number)) }
        ensures none { IfNone result ((number : ℕ) → IsFalse (can_go desk.now self.now number)) }
    {
        match self.first_from(desk, after.saturating_add(1)) {
            Some(number) => Some(number),
            None => self.first_from(desk, 0),
        }
    }

    /// Whether a thread is out at another pass than this. It takes no memory.
    fn is_elsewhere(&self, number: u32, pass: u32) -> bool
        ensures { result ≡ is_elsewhere_at pass (at_number self.now number) }
    {
        match self.places.get(number) {
            Some(Place::Out(other)) => *other != pass,
            Some(Place::Fresh(_) | Place::Parked(_) | Place::Gone) | None => false,
        }
    }

    /// Whether any thread is out at another pass than this. It takes no memory.
    pub(crate) fn is_any_elsewhere(&self, pass: u32) -> bool
        ensures there { IsTrue result → (number : ℕ) × IsTrue (is_elsewhere_at pass (at_number self.now number)) }
        ensures nowhere { IsFalse result → (number : ℕ) → IsFalse (is_elsewhere_at pass (at_number self.now number)) }
    {
        for number in 0..=self.len() {
            if self.is_elsewhere(number, pass) {
                return true;
            }
        }
        false
    }

    /// A fresh thread is handed out at this pass. It takes no memory.
    pub(crate) fn hand_out_fresh(&mut self, number: u32, pass: u32) -> Task
        requires fresh { IsTrue (is_fresh_at (at_number self.old number)) }
        ensures { HandsOutFresh number pass self.old self.new result }
    {
        let interp = take_fresh(self.places.place_mut(number), pass);
        Task {
            thread: number,
            interp,
            reply: None,
        }
    }

    /// A parked thread gets its reply, and is handed out at this pass, unless nothing can follow the reply. It takes no
    /// memory.
    pub(crate) fn hand_out(&mut self, number: u32, pass: u32, reply: Reply) -> Option<Task>
        requires parked { IsSome (asked_at (at_number self.old number)) }
        ensures { HandsOut number pass reply self.old self.new result }
    {
        let given = Some(reply);
        let interp = take_parked(self.places.place_mut(number), pass, &given)?;
        Some(Task {
            thread: number,
            interp,
            reply: given,
        })
    }

    /// A thread that was out waits for the reply to what it asks. It takes no memory.
    pub(crate) fn park(&mut self, number: u32, interp: BoxedInterp)
        requires halted { IsTrue (interps.is_halted interp.standing) }
        ensures { self.new ≡ parked_at self.old number interp }
    {
        if let Some(place) = self.places.get_mut(number) {
            *place = Place::Parked(interp);
        }
    }
}

/// The interpreter of a fresh thread, which is then out at this pass.
fn take_fresh(place: &mut Place, pass: u32) -> BoxedInterp
    requires fresh { IsTrue (is_fresh_at (Some place.old)) }
    ensures was { place.old ≡ Place.Fresh result }
    ensures out { place.new ≡ Place.Out pass }
    ensures fit { IsFit place.new }
{
    match mem::replace(place, Place::Out(pass)) {
        Place::Fresh(interp) => interp,
        Place::Parked(_) | Place::Out(_) | Place::Gone => unreachable!(),
    }
}

/// The interpreter of a parked thread, which is then out at this pass; or `None` if it can't be resumed with what is
/// given, and then the thread is gone.
fn take_parked(place: &mut Place, pass: u32, given: &Option<Reply>) -> Option<BoxedInterp>
    requires parked { IsSome (asked_at (Some place.old)) }
    ensures taken { TakesParked pass given.now place.old place.new result }
    ensures fit { IsFit place.new }
{
    let Place::Parked(interp) = mem::replace(place, Place::Gone) else {
        unreachable!()
    };
    if !interp.can_resume(given) {
        return None;
    }
    *place = Place::Out(pass);
    Some(interp)
}
