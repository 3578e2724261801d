//! A run on workers, as it lies under the lock.
ghost use Rattle.std.specs.Prelude.{◌≡◌, ◌≢◌, ◌+◌, ◌≤◌, ◌<◌, [], ◌∷◌, ℕ, None, Some, IfOk, IfErr, IfSome};
ghost use Rattle.std.specs.Prelude.{IfNone, IsSome, IsTrue, IsFalse, length, replicate};
ghost use Rattle.tt_calls.specs.declared.start.Start.TheVariants as start;
ghost use Rattle.tt_schedule.specs.ScheduleText.{most_steps};
ghost use Rattle.tt_workers.specs.Ends.{fault_so_far, end_fault};
ghost use Rattle.tt_interp.specs.Interps as interps;
ghost use Rattle.tt_calls.specs.Numbers.{at_number};
ghost use Rattle.tt_workers.specs.inside.Places.{asked_at, can_go};
ghost use Rattle.tt_workers.specs.Ran.{IsRan, end_or_memory};
ghost use Rattle.tt_workers.specs.inside.Rosters.{BeginsAt};
ghost use Rattle.tt_workers.specs.inside.Rounds.{KeepsVacant, Replies, Rounds, TakesBack, Turning, next_of};
ghost use Rattle.tt_core.specs.Parts.{IsFirstPart};
ghost use Rattle.tt_workers.specs.inside.Turns.{IsNextAt, IsReady, KeepsTied, Returns, StaysEnded, note_after, out_of};
ghost use Rattle.tt_workers.specs.inside.World.{IsTied};

use crate::next::{Done, Next, Resumption, RunEnd, Task};
use crate::note::{Held, Out};
use crate::ran::Ran;
use crate::roster::Roster;
use std::alloc::Global;
use std::marker::Model;
use std::snapshot::Snapshot;
use tt_calls::{Reply, Start};
use tt_core::Began;
use tt_devices::{Sink, Source};
use tt_interp::Setup;
use tt_noted::Wakes;
use tt_run::{Desk, NewFault, StepFault};
use tt_text::NoMemory;

/// A run on workers: what it stands on, the places of its threads, and its end if there is one.
#[derive(Drop)]
pub struct World<S: Source, K: Sink, E: Sink> {
    setup: Setup,
    steps: u32,
    devices: Began<S, K, E>,
    desk: Desk<S, K, E>,
    roster: Roster,
    // The thread that went on last.
    last: u32,
    end: Option<RunEnd>,
    alloc: Global,
}

impl<S: Source, K: Sink, E: Sink> Model for World<S, K, E> {
    ghost use Rattle.std.specs.Prelude.{◌≤◌};
    ghost use Rattle.tt_workers.specs.inside.World.{Realm};

    ghost Value = { Realm S K E };

    ghost view = { λ world. record {
      begun = record { setup = world.setup; steps = world.steps; devices = world.devices };
      desk = world.desk;
      places = world.roster;
      end = world.end;
    } };

    ghost invariant = { λ world. world.steps ≤ 16777216 };
}

impl<S: Source, K: Sink, E: Sink> World<S, K, E> {
    /// A run of this script over these devices, of at most so many steps, 1 to 16,777,216. Its main thread is fresh,
    /// and no step was taken.
    ///
    /// `NewFault` if memory is refused, with the devices as they were given.
    pub fn new(
        alloc: Global,
        setup: Setup,
        input: S,
        output: K,
        errors: E,
        steps: u32,
    ) -> Result<Self, NewFault<S, K, E>>
        requires steps { (1 ≤ steps) × (steps ≤ most_steps) }
        ensures begun { IfOk result (λ world. world.begun ≡ record {
          setup = setup;
          steps = steps;
          devices = record { input = input; output = output; errors = errors };
        }) }
        ensures untouched { IfOk result (λ world.
            world.desk.devices ≡ record { input = input; ahead = []; output = output; errors = errors }) }
        ensures no_step { IfOk result (λ world. (world.desk.schedule ≡ []) × (world.end ≡ None)) }
        ensures tied { IfOk result (λ world.
            (count : ℕ) → IsTied S.Source K.Sink E.Sink world (replicate count (note_after world None))) }
        ensures handed_back { IfErr result (λ fault.
            fault ≡ record { input = input; output = output; errors = errors }) }
    {
        let devices = Began::of(&input, &output, &errors);
        match begun(alloc, &setup) {
            Ok((roster, start)) => match Desk::new(alloc, start, input, output, errors) {
                Ok(desk) => Ok(World {
                    setup,
                    steps,
                    devices,
                    desk,
                    roster,
                    last: 0,
                    end: None,
                    alloc,
                }),
                Err(fault) => Err(fault),
            },
            Err(_) => Err(NewFault {
                input,
                output,
                errors,
            }),
        }
    }

    /// One turn of the worker with this pass: it hands back the thread that it had, and takes one that can go on. Which
    /// one is free. A parked thread is handed out with the reply of the action that was just done and added to the
    /// schedule, and a fresh one without a reply and without an entry. If an action ends its thread, the turn goes on
    /// to another.
    ///
    /// `Rest` if no thread can go on and another worker has one; `Over` exactly if the run has its end.
    pub fn turn(&mut self, pass: u32, done: Option<Done>) -> Next
        requires pass { 1 ≤ pass }
        requires tied { (notes : _) × IsTied S.Source K.Sink E.Sink self.old notes × Returns notes pass done }

        ensures keeps { KeepsTied S.Source K.Sink E.Sink self.old self.new pass done result }
        ensures ready { IsReady result }
        ensures next { IsNextAt pass self.new result }
        ensures begun { self.new.begun ≡ self.old.begun }
        ensures longer { IsFirstPart self.old.desk.schedule self.new.desk.schedule }
        ensures ended { IsSome self.old.end → StaysEnded self.old self.new }
    {
        self.bring(pass, done);
        'rounds: loop {
            if let Some(next) = self.go_on(pass) {
                return next;
            }
        }
    }

    /// Whom a worker wakes of those that rest, after its turn: all if the run has its end; one if another thread can go
    /// on, and the worker may be busy for long, or was; else nobody, since it comes back soon and takes that thread
    /// itself. It takes no memory.
    pub fn wakes(&self, was_busy: bool, next: &Next) -> Wakes
        ensures end { IsSome self.now.end → result ≡ Wakes.All }
    {
        if self.end.is_some() {
            return Wakes::All;
        }
        if (was_busy || next.is_fresh()) && self.roster.next_after(&self.desk, 0).is_some() {
            Wakes::One
        } else {
            Wakes::Nobody
        }
    }

    /// The note of a pass after a turn.
    pub fn note(&self, next: &Next) -> Held<S, K, E>
        ensures { result ≡ note_after self.now (out_of next.now) }
    {
        Held {
            setup: Snapshot::of(&self.setup),
            steps: self.steps,
            devices: Snapshot::of(&self.devices),
            out: Out::of(next),
        }
    }

    /// Ends the run: its end, or `Memory` if there is none, with the schedule and the devices.
    pub fn finish(self) -> Ran<S, K, E>
        ensures end { result.end ≡ end_or_memory self.end }
        ensures schedule { result.schedule.threads ≡ self.desk.schedule }
        ensures devices { (result.input ≡ self.desk.devices.input) × (result.output ≡ self.desk.devices.output)
            × (result.errors ≡ self.desk.devices.errors) }
        ensures ran { (notes : _) → IsTied S.Source K.Sink E.Sink self notes →
            IsRan S.Source K.Sink E.Sink self.begun result }
    {
        let World {
            setup: _,
            steps: _,
            devices: _,
            desk,
            roster: _,
            last: _,
            end,
            alloc: _,
        } = self;
        let (schedule, input, output, errors) = desk.finish();
        Ran {
            end: end.unwrap_or(RunEnd::Memory),
            schedule,
            input,
            output,
            errors,
        }
    }

    // A thread comes back, or none does.
    fn bring(&mut self, pass: u32, done: Option<Done>)
        requires tied { (notes : _) × IsTied S.Source K.Sink E.Sink self.old notes × Returns notes pass done }
        ensures so_far { Turning S.Source K.Sink E.Sink pass done self.old self.new }
    {
        match done {
            Some(done) => self.take_back(done),
            None => {}
        }
    }

    // A thread comes back. If memory was refused to it, that ends the run.
    fn take_back(&mut self, done: Done)
        requires kept { self.old.desk.kept ≡ fault_so_far self.old.end }
        requires halted { done.resumption ≡ Resumption.Halted → IsTrue (interps.is_halted done.interp.standing) }
        ensures back { TakesBack S.Source K.Sink E.Sink done self.old self.new }
    {
        if self.end.is_some() {
            return;
        }
        match done.resumption {
            Resumption::Halted => self.roster.park(done.thread, done.interp),
            Resumption::OutOfMemory => {
                self.desk.run_out();
                self.end = Some(RunEnd::Memory);
            }
        }
    }

    // One round of a turn; `None` if its action ended the thread.
    fn go_on(&mut self, pass: u32) -> Option<Next>
        requires pass { 1 ≤ pass }
        requires kept { self.old.desk.kept ≡ fault_so_far self.old.end }
        requires within { length self.old.desk.schedule ≤ self.old.begun.steps }
        ensures keeps { KeepsVacant S.Source K.Sink E.Sink self.old self.new pass (next_of result) }
        ensures goes { Rounds pass self.old self.new result }
    {
        if self.end.is_some() {
            return Some(Next::Over);
        }
        if let Some(code) = self.desk.over() {
            self.end = Some(RunEnd::Over(code));
            return Some(Next::Over);
        }
        match self.roster.next_after(&self.desk, self.last) {
            Some(number) => self.hand_out(pass, number),
            None => Some(self.settle(pass)),
        }
    }

    // Nobody can go on: the worker rests if another has a thread, or the run is stuck.
    fn settle(&mut self, pass: u32) -> Next
        requires going { self.old.end ≡ None }
        requires kept { self.old.desk.kept ≡ None }
        requires within { length self.old.desk.schedule ≤ self.old.begun.steps }
        requires not_over { self.old.desk.shared.over ≡ None }
        requires unready { (number : ℕ) → IsFalse (can_go self.old.desk self.old.places number) }
        ensures keeps { KeepsVacant S.Source K.Sink E.Sink self.old self.new pass (out_of result) }
        ensures goes { Rounds pass self.old self.new (Some result) }
    {
        if self.roster.is_any_elsewhere(pass) {
            return Next::Rest;
        }
        self.end = Some(RunEnd::Stuck);
        Next::Over
    }

    // A thread goes on that can.
    fn hand_out(&mut self, pass: u32, number: u32) -> Option<Next>
        requires pass { 1 ≤ pass }
        requires going { self.old.end ≡ None }
        requires kept { self.old.desk.kept ≡ None }
        requires within { length self.old.desk.schedule ≤ self.old.begun.steps }
        requires able { IsTrue (can_go self.old.desk self.old.places number) }
        ensures keeps { KeepsVacant S.Source K.Sink E.Sink self.old self.new pass (next_of result) }
        ensures goes { Rounds pass self.old self.new result }
    {
        self.last = number;
        if self.roster.request(number).is_none() {
            return Some(Next::Run(self.roster.hand_out_fresh(number, pass)));
        }
        if self.desk.schedule().len() >= u64::from(self.steps) {
            self.end = Some(RunEnd::Limit);
            return Some(Next::Over);
        }
        self.act(pass, number)
    }

    // A parked thread does its action, and is handed out with the reply, unless that ended it.
    fn act(&mut self, pass: u32, number: u32) -> Option<Next>
        requires pass { 1 ≤ pass }
        requires going { self.old.end ≡ None }
        requires kept { self.old.desk.kept ≡ None }
        requires room { length self.old.desk.schedule < self.old.begun.steps }
        requires able { IsTrue (can_go self.old.desk self.old.places number) }
        requires parked { IsSome (asked_at (at_number self.old.places number)) }
        ensures keeps { KeepsVacant S.Source K.Sink E.Sink self.old self.new pass (next_of result) }
        ensures goes { Rounds pass self.old self.new result }
    {
        let Some(request) = self.roster.request(number) else {
            unreachable!()
        };
        match self.desk.act(number, request) {
            Err(fault) => {
                self.end = Some(end_by(fault));
                Some(Next::Over)
            }
            Ok(acted) => match answer(
                self.alloc,
                &mut self.roster,
                &self.desk,
                &self.setup,
                number,
                pass,
                acted.reply,
            ) {
                Ok(Some(task)) => Some(Next::Run(task)),
                Ok(None) => None,
                Err(_) => {
                    self.desk.run_out();
                    self.end = Some(RunEnd::Memory);
                    Some(Next::Over)
                }
            },
        }
    }
}

// The end of a run that met a fault or want of memory.
fn end_by(fault: StepFault) -> RunEnd
    requires known { fault ≢ StepFault.NotEnabled }
    ensures { end_fault result ≡ Some fault }
{
    match fault {
        StepFault::ReadFault => RunEnd::Read,
        StepFault::WriteFault => RunEnd::Write,
        StepFault::NoMemory => RunEnd::Memory,
        StepFault::NotEnabled => unreachable!(),
    }
}

// A parked thread gets its reply, and threads that were made with it are there.
fn answer<S: Source, K: Sink, E: Sink>(
    alloc: Global,
    roster: &mut Roster,
    desk: &Desk<S, K, E>,
    setup: &Setup,
    number: u32,
    pass: u32,
    reply: Reply,
) -> Result<Option<Task>, NoMemory>
    requires parked { IsSome (asked_at (at_number roster.old number)) }
    ensures { IfOk result (Replies setup.now desk.now.shared.rows number pass reply roster.old roster.new) }
{
    let task = roster.hand_out(number, pass, reply);
    roster.begin_all(alloc, desk, setup)?;
    Ok(task)
}

// The main thread is there.
fn begun(alloc: Global, setup: &Setup) -> Result<(Roster, Start), NoMemory>
    ensures start { IfOk result (λ begun. begun.1 ≡ start.Script setup.now.script) }
    ensures begins { IfOk result (λ begun. BeginsAt setup.now (start.Script setup.now.script) [] begun.0) }
{
    let start = Start::Script(setup.script.copy()?);
    let mut roster = Roster::new(alloc);
    roster.begin(alloc, &start, 1, setup)?;
    Ok((roster, start))
}
