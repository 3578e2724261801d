ghost use Rattle.std.specs.Prelude.{◌≡◌, ◌≢◌, ◌<◌, ◌≤◌, ◌+◌, ◌++◌, ◌∷◌, [], ◌⊎◌, ℕ, Option, Some, None};
ghost use Rattle.std.specs.Prelude.{Err, IsSome, IsTrue, IsFalse, IfOk, IfErr, OnOk, IsErrOf, IfSome, length};
ghost use Rattle.laws_runs.specs.Lawful.{Lawful};
ghost use Rattle.tt_calls.specs.declared.start.Start.TheVariants as start;
ghost use Rattle.tt_core.specs.inside.Crew.{AllBegin, AreBusy, AreIdle, BeginsLast, IsFirstReady};
ghost use Rattle.tt_core.specs.inside.Crew.{IsReadyAfter, IsReplied, Places, asked_by, interp_of, is_ready};
ghost use Rattle.tt_core.specs.inside.Standing.{IsOf, IsTold};
ghost use Rattle.tt_devices.specs.Faults.{Rises};
ghost use Rattle.tt_devices.specs.Streams.{Grows};
ghost use Rattle.tt_machine.specs.Machine.{CanStep, IsBarred, IsStuck};
ghost use Rattle.tt_machine.specs.RunActions.{StepsOrderly};
ghost use Rattle.tt_schedule.specs.ScheduleText.{most_steps};

use crate::began::Began;
use crate::crew::Crew;
use crate::told::{Telling, Told};
use std::alloc::Global;
use std::marker::Model;
use tt_calls::{Boxed, Request, Start};
use tt_devices::{Sink, Source};
use tt_interp::Setup;
use tt_run::{Acted, Desk, NewFault, StepFault};
use tt_schedule::Schedule;
use tt_shared::Shared;
use tt_text::NoMemory;

/// A run of a script, stepped one action at a time.
#[derive(Drop)]
pub struct System<S: Source, K: Sink, E: Sink> {
    setup: Setup,
    began: Began<S, K, E>,
    desk: Desk<S, K, E>,
    crew: Crew,
    alloc: Global,
}

impl<S: Source, K: Sink, E: Sink> Model for System<S, K, E> {
    ghost use Rattle.tt_core.specs.Stage.{Stage};
    ghost use Rattle.tt_core.specs.inside.Standing.{InPlaces, IsStanding};

    ghost Value = { Stage S K E };

    ghost view = { λ system. record { setup = system.setup; began = system.began; desk = system.desk } };

    ghost invariant = { λ system. IsStanding S.held K.got E.got
        (record { setup = system.setup; began = system.began; desk = system.desk }) (InPlaces system.crew) };
}

impl<S: Source, K: Sink, E: Sink> System<S, K, E> {
    ghost use Rattle.tt_core.specs.Faithful.{AreFaithful, AsksLine, StepWrites};
    ghost use Rattle.tt_core.specs.Parts.{HoldsLastPart};
    ghost use Rattle.tt_core.specs.Stage.{IsNextAfter, OfMachine, SameBeginning};
    ghost use Rattle.tt_core.specs.Telling.{IsAsking, IsSilent, IsStep};

    /// A run of this script over these devices, with no step taken.
    ///
    /// `NewFault` if memory is refused, with the devices as they were given.
    pub fn new(
        alloc: Global,
        setup: Setup,
        input: S,
        output: K,
        errors: E,
    ) -> Result<Self, NewFault<S, K, E>>
        ensures setup { IfOk result (λ system. system.setup ≡ setup) }
        ensures given { IfOk result (λ system.
            system.began ≡ record { input = input; output = output; errors = errors }) }
        ensures untouched { IfOk result (λ system.
            system.desk.devices ≡ record { input = input; ahead = []; output = output; errors = errors }) }
        ensures no_step { IfOk result (λ system. (system.desk.schedule ≡ []) × (system.desk.kept ≡ None)) }
        ensures handed_back { IfErr result (λ fault.
            fault ≡ record { input = input; output = output; errors = errors }) }
    {
        let began = Began::of(&input, &output, &errors);
        match begun(alloc, &setup) {
            Ok((crew, start)) => match Desk::new(alloc, start, input, output, errors) {
                Ok(desk) => Ok(System {
                    setup,
                    began,
                    desk,
                    crew,
                    alloc,
                }),
                Err(fault) => Err(fault),
            },
            Err(_) => Err(NewFault {
                input,
                output,
                errors,
            }),
        }
    }

    /// Whether the thread can take a step: whether it lives, its request is enabled, the run isn't over, and no fault
    /// and no want of memory was met. It takes no memory.
    pub fn enabled(&self, thread: u32) -> bool
        ensures going { IsTrue result → self.now.desk.kept ≡ None }
        ensures can { IsTrue result → OfMachine S.held self.now (λ machine. CanStep machine thread) }
        ensures barred { IsFalse result → self.now.desk.kept ≡ None →
            OfMachine S.held self.now (λ machine. IsBarred machine thread) }
    {
        is_ready(&self.desk, &self.crew, thread)
    }

    /// Answers the thread's request, adds the thread to the schedule, and puts what the request writes.
    ///
    /// `NotEnabled` exactly if the machine can't step the thread and nothing was met before; then nothing changes.
    /// `ReadFault` only if the thread asks for a line and the source's count of faults rose in this step; then no entry
    /// was added. `WriteFault` only if the step writes something and a sink's count rose in this step; then the entry
    /// was added, and a first part of what it writes was put. `NoMemory` if memory is refused. After these three the
    /// system does nothing more, and each later step answers the same.
    pub fn step(&mut self, thread: u32) -> Result<(), StepFault>
        requires { length self.old.desk.schedule < most_steps }

        ensures stepped { OnOk result (self.new.desk.schedule ≡ self.old.desk.schedule ++ thread ∷ []) }
        ensures could { OnOk result (OfMachine S.held self.old (λ machine. CanStep machine thread)) }
        ensures goes_on { OnOk result (self.new.desk.kept ≡ None) }
        ensures orderly { OnOk result (OfMachine S.held self.old (StepsOrderly thread)) }
        ensures lawful { OnOk result (Lawful self.new.setup self.new.desk.schedule) }
        ensures not_enabled { IsErrOf result StepFault.NotEnabled →
            (self.old.desk.kept ≡ None) × OfMachine S.held self.old (λ machine. IsBarred machine thread) }
        ensures unchanged { IsErrOf result StepFault.NotEnabled → self.new ≡ self.old }

        // Faults and want of memory stay.
        ensures again { IfSome self.old.desk.kept (λ fault. (result ≡ Err fault) × (self.new ≡ self.old)) }
        ensures kept { IfErr result (λ fault. (fault ≡ StepFault.NotEnabled) ⊎ (self.new.desk.kept ≡ Some fault)) }
        ensures entry_added { IsErrOf result StepFault.WriteFault → self.old.desk.kept ≡ None →
            self.new.desk.schedule ≡ self.old.desk.schedule ++ thread ∷ [] }
        ensures no_entry { IsErrOf result StepFault.ReadFault → self.new.desk.schedule ≡ self.old.desk.schedule }
        ensures at_most_one { IsErrOf result StepFault.NoMemory →
            (self.new.desk.schedule ≡ self.old.desk.schedule)
            ⊎ (self.new.desk.schedule ≡ self.old.desk.schedule ++ thread ∷ []) }
        ensures tried { IfErr result (λ fault. (fault ≢ StepFault.NotEnabled) → self.old.desk.kept ≡ None →
            OfMachine S.held self.old (λ machine. CanStep machine thread)) }
        ensures read_fault { IsErrOf result StepFault.ReadFault → self.old.desk.kept ≡ None →
            Rises (S.fault_count self.old.desk.devices.input) (S.fault_count self.new.desk.devices.input) }
        ensures a_line { IsErrOf result StepFault.ReadFault → self.old.desk.kept ≡ None →
            OfMachine S.held self.old (AsksLine thread) }
        ensures write_fault { IsErrOf result StepFault.WriteFault → self.old.desk.kept ≡ None →
            Rises (K.fault_count self.old.desk.devices.output) (K.fault_count self.new.desk.devices.output)
            ⊎ Rises (E.fault_count self.old.desk.devices.errors) (E.fault_count self.new.desk.devices.errors) }
        ensures a_piece { IsErrOf result StepFault.WriteFault → self.old.desk.kept ≡ None →
            OfMachine S.held self.old (StepWrites thread) }

        // What stays.
        ensures same_beginning { SameBeginning self.old self.new }
        ensures no_output { self.new.desk.schedule ≡ self.old.desk.schedule →
            self.new.desk.devices.output ≡ self.old.desk.devices.output }
        ensures no_errors { self.new.desk.schedule ≡ self.old.desk.schedule →
            self.new.desk.devices.errors ≡ self.old.desk.devices.errors }
        ensures reads_steady { (result ≢ Err StepFault.ReadFault) →
            S.fault_count self.new.desk.devices.input ≡ S.fault_count self.old.desk.devices.input }
        ensures writes_steady { (result ≢ Err StepFault.WriteFault) →
            (K.fault_count self.new.desk.devices.output ≡ K.fault_count self.old.desk.devices.output)
            × (E.fault_count self.new.desk.devices.errors ≡ E.fault_count self.old.desk.devices.errors) }
    {
        match self.take_step(thread, Telling::Nothing) {
            Ok(_) => Ok(()),
            Err(fault) => Err(fault),
        }
    }

    // A step, which answers this.
    pub(crate) fn take_step(
        &mut self,
        thread: u32,
        telling: Telling,
    ) -> Result<Option<Boxed<Told>>, StepFault>
        requires { length self.old.desk.schedule < most_steps }

        ensures stepped { OnOk result (self.new.desk.schedule ≡ self.old.desk.schedule ++ thread ∷ []) }
        ensures could { OnOk result (OfMachine S.held self.old (λ machine. CanStep machine thread)) }
        ensures goes_on { OnOk result (self.new.desk.kept ≡ None) }
        ensures orderly { OnOk result (OfMachine S.held self.old (StepsOrderly thread)) }
        ensures lawful { OnOk result (Lawful self.new.setup self.new.desk.schedule) }
        ensures not_enabled { IsErrOf result StepFault.NotEnabled →
            (self.old.desk.kept ≡ None) × OfMachine S.held self.old (λ machine. IsBarred machine thread) }
        ensures unchanged { IsErrOf result StepFault.NotEnabled → self.new ≡ self.old }

        // Faults and want of memory stay.
        ensures again { IfSome self.old.desk.kept (λ fault. (result ≡ Err fault) × (self.new ≡ self.old)) }
        ensures kept { IfErr result (λ fault. (fault ≡ StepFault.NotEnabled) ⊎ (self.new.desk.kept ≡ Some fault)) }
        ensures entry_added { IsErrOf result StepFault.WriteFault → self.old.desk.kept ≡ None →
            self.new.desk.schedule ≡ self.old.desk.schedule ++ thread ∷ [] }
        ensures no_entry { IsErrOf result StepFault.ReadFault → self.new.desk.schedule ≡ self.old.desk.schedule }
        ensures at_most_one { IsErrOf result StepFault.NoMemory →
            (self.new.desk.schedule ≡ self.old.desk.schedule)
            ⊎ (self.new.desk.schedule ≡ self.old.desk.schedule ++ thread ∷ []) }
        ensures tried { IfErr result (λ fault. (fault ≢ StepFault.NotEnabled) → self.old.desk.kept ≡ None →
            OfMachine S.held self.old (λ machine. CanStep machine thread)) }
        ensures read_fault { IsErrOf result StepFault.ReadFault → self.old.desk.kept ≡ None →
            Rises (S.fault_count self.old.desk.devices.input) (S.fault_count self.new.desk.devices.input) }
        ensures a_line { IsErrOf result StepFault.ReadFault → self.old.desk.kept ≡ None →
            OfMachine S.held self.old (AsksLine thread) }
        ensures write_fault { IsErrOf result StepFault.WriteFault → self.old.desk.kept ≡ None →
            Rises (K.fault_count self.old.desk.devices.output) (K.fault_count self.new.desk.devices.output)
            ⊎ Rises (E.fault_count self.old.desk.devices.errors) (E.fault_count self.new.desk.devices.errors) }
        ensures a_piece { IsErrOf result StepFault.WriteFault → self.old.desk.kept ≡ None →
            OfMachine S.held self.old (StepWrites thread) }

        // What stays.
        ensures same_beginning { SameBeginning self.old self.new }
        ensures no_output { self.new.desk.schedule ≡ self.old.desk.schedule →
            self.new.desk.devices.output ≡ self.old.desk.devices.output }
        ensures no_errors { self.new.desk.schedule ≡ self.old.desk.schedule →
            self.new.desk.devices.errors ≡ self.old.desk.devices.errors }
        ensures reads_steady { (result ≢ Err StepFault.ReadFault) →
            S.fault_count self.new.desk.devices.input ≡ S.fault_count self.old.desk.devices.input }
        ensures writes_steady { (result ≢ Err StepFault.WriteFault) →
            (K.fault_count self.new.desk.devices.output ≡ K.fault_count self.old.desk.devices.output)
            × (E.fault_count self.new.desk.devices.errors ≡ E.fault_count self.old.desk.devices.errors) }

        // What is told.
        ensures tells { IfOk result (λ told. IsTold telling → IsSome told) }
        ensures told { IfOk result (λ told. IfSome told (λ told. OfMachine S.held self.old (IsStep thread told))) }
    {
        if let Some(fault) = self.desk.kept_fault() {
            return Err(fault);
        }
        let Some(request) = self.crew.request(thread) else {
            return Err(StepFault::NotEnabled);
        };
        match self.desk.act(thread, request) {
            Err(fault) => Err(fault),
            Ok(acted) => {
                let gone_on = go_on(
                    self.alloc,
                    &mut self.crew,
                    &self.desk,
                    &self.setup,
                    thread,
                    acted,
                    telling,
                );
                let Ok(told) = gone_on else {
                    self.desk.run_out();
                    return Err(StepFault::NoMemory);
                };
                Ok(told)
            }
        }
    }

    /// The thread that is next in turn after one: of those that can take a step the first above it, and else the first
    /// up to it. `None` exactly if no thread can, or a fault or want of memory was met. It takes no memory.
    pub fn next_enabled(&self, after: u32) -> Option<u32>
        ensures next { self.now.desk.kept ≡ None → OfMachine S.held self.now (IsNextAfter after result) }
        ensures met { IsSome self.now.desk.kept → result ≡ None }
    {
        next_ready(&self.desk, &self.crew, after)
    }

    /// Whether no thread can take a step though the run isn't over, and no fault and no want of memory was met. It
    /// takes no memory.
    pub fn stuck(&self) -> bool
        ensures stuck { IsTrue result → (self.now.desk.kept ≡ None) × OfMachine S.held self.now IsStuck }
        ensures not_stuck { IsFalse result → self.now.desk.kept ≡ None →
            OfMachine S.held self.now (λ machine. ¬ (IsStuck machine)) }
    {
        are_idle(&self.desk, &self.crew)
    }

    /// The code with which the run ended, from 0 to 255, or `None` exactly if it isn't over. It takes no memory.
    pub fn ended(&self) -> Option<u8>
        ensures is { result ≡ self.now.desk.shared.over }
        ensures ended { self.now.desk.kept ≡ None →
            OfMachine S.held self.now (λ machine. machine.shared.over ≡ result) }
    {
        self.desk.over()
    }

    /// What the threads share. It takes no memory.
    pub fn shared(&self) -> &Shared
        ensures is { result.now ≡ self.now.desk.shared }
        ensures shared { self.now.desk.kept ≡ None →
            OfMachine S.held self.now (λ machine. machine.shared ≡ result.now) }
    {
        let shared = self.desk.shared();
        shared
    }

    /// What the thread asks next; `None` exactly if it doesn't live, or asks nothing since the run is over, or a fault
    /// or want of memory was met. It takes no memory.
    pub fn request(&self, thread: u32) -> Option<&Request>
        ensures going { IsSome result → self.now.desk.kept ≡ None }
        ensures asks { IfSome result (λ request. OfMachine S.held self.now (IsAsking thread request.now)) }
        ensures silent { result ≡ None → self.now.desk.kept ≡ None → OfMachine S.held self.now (IsSilent thread) }
    {
        if self.desk.kept_fault().is_some() {
            return None;
        }
        if !self.desk.lives(thread) {
            return None;
        }
        let request = self.crew.request(thread)?;
        Some(request)
    }

    /// Standard output, as it is. It takes no memory.
    pub fn output(&self) -> &K
        ensures is { result.now ≡ self.now.desk.devices.output }
        ensures got { self.now.desk.kept ≡ None → OfMachine S.held self.now
            (λ machine. Grows (K.got self.now.began.output) (K.got result.now) machine.out) }
    {
        let output = self.desk.output();
        output
    }

    /// Standard error, as it is. It takes no memory.
    pub fn errors(&self) -> &E
        ensures is { result.now ≡ self.now.desk.devices.errors }
        ensures got { self.now.desk.kept ≡ None → OfMachine S.held self.now
            (λ machine. Grows (E.got self.now.began.errors) (E.got result.now) machine.err) }
    {
        let errors = self.desk.errors();
        errors
    }

    /// The steps that were taken.
    pub fn schedule(&self) -> &Schedule
        ensures { result.now.threads ≡ self.now.desk.schedule }
    {
        self.desk.schedule()
    }

    /// Gives the schedule and the devices back. The source still holds a last part of what the machine has not read.
    pub fn finish(self) -> (Schedule, S, K, E)
        ensures schedule { result.0.threads ≡ self.desk.schedule }
        ensures devices { (result.1 ≡ self.desk.devices.input) × (result.2 ≡ self.desk.devices.output)
            × (result.3 ≡ self.desk.devices.errors) }
        ensures faithful { AreFaithful S.held K.got E.got self }
        ensures left { OfMachine S.held self (λ machine. HoldsLastPart (S.held result.1) machine.input) }
    {
        let System {
            setup: _,
            began: _,
            desk,
            crew: _,
            alloc: _,
        } = self;
        desk.finish()
    }
}

/// Whether a thread's request can be answered.
fn is_ready<S: Source, K: Sink, E: Sink>(desk: &Desk<S, K, E>, crew: &Crew, thread: u32) -> bool
    ensures { result ≡ is_ready desk.now crew.now thread }
{
    match crew.request(thread) {
        Some(request) => desk.enabled(thread, request),
        None => false,
    }
}

/// Whether nothing was met, the run isn't over, and nobody's request can be answered.
fn are_idle<S: Source, K: Sink, E: Sink>(desk: &Desk<S, K, E>, crew: &Crew) -> bool
    ensures idle { IsTrue result → AreIdle desk.now crew.now }
    ensures busy { IsFalse result → desk.now.kept ≡ None → AreBusy desk.now crew.now }
{
    if desk.kept_fault().is_some() {
        return false;
    }
    if desk.over().is_some() {
        return false;
    }
    next_ready(desk, crew, 0).is_none()
}

/// The thread that is next in turn after one, of those whose requests can be answered.
fn next_ready<S: Source, K: Sink, E: Sink>(
    desk: &Desk<S, K, E>,
    crew: &Crew,
    after: u32,
) -> Option<u32>
    ensures { IsReadyAfter (is_ready desk.now crew.now) after result }
{
    let last = crew.len();
    match first_above(desk, crew, after, last) {
        Some(next) => Some(next),
        None => first_ready(desk, crew, 1, least(after, last)),
    }
}

fn first_above<S: Source, K: Sink, E: Sink>(
    desk: &Desk<S, K, E>,
    crew: &Crew,
    after: u32,
    last: u32,
) -> Option<u32>
    ensures { IsFirstReady (is_ready desk.now crew.now) (after + 1) last result }
{
    match after.checked_add(1) {
        Some(from) => first_ready(desk, crew, from, last),
        None => None,
    }
}

fn least(one: u32, other: u32) -> u32
    ensures { (result ≤ one) × (result ≤ other) × ((number : ℕ) → number ≤ one → number ≤ other → number ≤ result) }
{
    if one <= other { one } else { other }
}

/// The first thread of a range whose request can be answered.
fn first_ready<S: Source, K: Sink, E: Sink>(
    desk: &Desk<S, K, E>,
    crew: &Crew,
    from: u32,
    to: u32,
) -> Option<u32>
    ensures { IsFirstReady (is_ready desk.now crew.now) from to result }
{
    for number in from..=to {
        if is_ready(desk, crew, number) {
            return Some(number);
        }
    }
    None
}

/// A thread goes on with its reply, and threads that were made begin. What was done is answered if this says so.
fn go_on<S: Source, K: Sink, E: Sink>(
    alloc: Global,
    crew: &mut Crew,
    desk: &Desk<S, K, E>,
    setup: &Setup,
    thread: u32,
    acted: Acted,
    telling: Telling,
) -> Result<Option<Boxed<Told>>, NoMemory>
    requires there { IsSome (interp_of crew.old thread) }
    ensures goes { OnOk result ((mid : Places) × IsReplied thread acted.reply crew.old mid
        × AllBegin setup.now desk.now.shared.rows mid crew.new) }
    ensures tells { IfOk result (λ told. IsTold telling → IsSome told) }
    ensures told { IfOk result (λ told. IfSome told (λ told. IsOf told (asked_by crew.old thread) acted)) }
{
    let told = told_if(alloc, telling, crew, thread, &acted)?;
    let reply = acted.reply;
    crew.reply(thread, reply)?;
    crew.begin_all(alloc, desk, setup)?;
    Ok(told)
}

/// What a thread asked and what was done, if this says so.
fn told_if(
    alloc: Global,
    telling: Telling,
    crew: &Crew,
    thread: u32,
    acted: &Acted,
) -> Result<Option<Boxed<Told>>, NoMemory>
    requires there { IsSome (interp_of crew.now thread) }
    ensures tells { IfOk result (λ told. IsTold telling → IsSome told) }
    ensures told { IfOk result (λ told. IfSome told (λ told. IsOf told (asked_by crew.now thread) acted.now)) }
{
    match telling {
        Telling::Nothing => Ok(None),
        Telling::Step => {
            let request = crew.request(thread).unwrap();
            let told = Told::of(alloc, request, acted)?;
            Ok(Some(told))
        }
    }
}

/// The main thread begins.
fn begun(alloc: Global, setup: &Setup) -> Result<(Crew, Start), NoMemory>
    ensures start { IfOk result (λ begun. begun.1 ≡ start.Script setup.now.script) }
    ensures begins { IfOk result (λ begun. BeginsLast setup.now
        (record { start = start.Script setup.now.script; replies = [] }) [] begun.0) }
{
    let start = Start::Script(setup.script.copy()?);
    let mut crew = Crew::new(alloc);
    crew.begin(alloc, &start, 1, setup)?;
    Ok((crew, start))
}
