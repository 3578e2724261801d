ghost use Rattle.std.specs.Prelude.{◌≡◌, ◌≢◌, ◌⊎◌, ◌<◌, ◌≤◌, [], true, None, Some, Err, IsTrue, IsFalse, IsSome, IfOk};
ghost use Rattle.std.specs.Prelude.{IfErr, IfSome, IsErrOf, OnOk, length, option_map};
ghost use Rattle.tt_run.specs.Acting.{Happens, IsAnswer, ReadsNothing, Writes};
ghost use Rattle.tt_run.specs.Desk.{can_act};
ghost use Rattle.tt_devices.specs.Faults.{Rises};
ghost use Rattle.tt_devices.specs.Streams.{Grows, GrowsByPart, LosesPart};
ghost use Rattle.tt_lines.specs.Lines.{IsInLine, reads_line};
ghost use Rattle.tt_schedule.specs.ScheduleText.{most_steps};
ghost use Rattle.tt_shared.specs.Acts.{act};
ghost use Rattle.tt_shared.specs.State.{start_state};
ghost use Rattle.tt_shared.specs.declared.applied.Line.{Line};
ghost use Rattle.tt_ids.specs.ThreadNumbers.{IsInRange};
ghost use Rattle.tt_threads.specs.Rows.{is_living, row_of};

use crate::devices::Devices;
use crate::fault::{NewFault, StepFault};
use std::alloc::Global;
use std::marker::Model;
use tt_calls::{Reply, Request, Start};
use tt_devices::{Sink, Source};
use tt_schedule::Schedule;
use tt_shared::{Applied, Shared};

/// The greatest number of a thread in a schedule.
const MOST_NUMBER: u32 = 16_777_216;

/// What an action gives.
#[derive(Debug, Drop)]
pub struct Acted {
    /// What the thread is answered.
    pub reply: Reply,
    /// How many threads were made.
    pub made: u32,
    /// The exit code of the run, from 0 to 255, if it is over.
    pub over: Option<u8>,
}

/// What a run stands on between its steps: what its threads share, its schedule, its devices, and the fault or the want
/// of memory that it met.
#[derive(Drop)]
pub struct Desk<S: Source, K: Sink, E: Sink> {
    shared: Shared,
    schedule: Schedule,
    devices: Devices<S, K, E>,
    kept: Option<StepFault>,
}

impl<S: Source, K: Sink, E: Sink> Model for Desk<S, K, E> {
    ghost use Rattle.std.specs.Prelude.{◌≢◌, Some};
    ghost use Rattle.tt_run.specs.Desk.{Ground};
    ghost use Rattle.tt_run.specs.declared.fault.StepFault.TheVariants.{NotEnabled};

    ghost Value = { Ground S K E };

    ghost view = { λ desk. record {
      shared = desk.shared;
      schedule = desk.schedule.threads;
      devices = desk.devices;
      kept = desk.kept;
    } };

    ghost invariant = { λ desk. desk.kept ≢ Some NotEnabled };
}

impl<S: Source, K: Sink, E: Sink> Desk<S, K, E> {
    /// Main alone, thread 1, which begins with this, over these devices, with no step taken.
    ///
    /// `NewFault` if memory is refused, with the devices as they were given.
    pub fn new(
        alloc: Global,
        main: Start,
        input: S,
        output: K,
        errors: E,
    ) -> Result<Self, NewFault<S, K, E>>
        ensures new { IfOk result (λ desk. desk ≡ record {
          shared = start_state main;
          schedule = [];
          devices = record { input = input; ahead = []; output = output; errors = errors };
          kept = None;
        }) }
        ensures handed_back { IfErr result (λ fault.
            fault ≡ record { input = input; output = output; errors = errors }) }
    {
        let Ok(shared) = Shared::new(alloc, main) else {
            return Err(NewFault {
                input,
                output,
                errors,
            });
        };
        Ok(Desk {
            shared,
            schedule: Schedule::new(alloc),
            devices: Devices::new(alloc, input, output, errors),
            kept: None,
        })
    }

    /// Whether the thread can be answered this request: whether it lives, the request is enabled, the run isn't over,
    /// and no fault and no want of memory was met. It takes no memory.
    pub fn enabled(&self, thread: u32, request: &Request) -> bool
        ensures enabled { result ≡ can_act self.now thread request.now }
    {
        self.kept.is_none()
            && self.shared.over().is_none()
            && self.shared.lives(thread)
            && self.shared.enabled(thread, request)
    }

    /// Answers the thread's request: reads a line if the request asks for one, adds the thread to the schedule, and
    /// puts what the request writes.
    ///
    /// `NotEnabled` exactly if the thread can't be answered this request and no fault is kept; then nothing changes.
    /// `ReadFault` only if the request reads a line, none was read ahead, and the source's count of faults rose; then
    /// no byte of standard input is lost and all else stays. `WriteFault` only if a sink's count of faults rose; then
    /// the request was answered, the entry added, and first parts of the pieces were put. `NoMemory` if memory is
    /// refused; then no entry was added and nothing was put. After these three the desk does nothing more, and each
    /// later action answers the same.
    pub fn act(&mut self, thread: u32, request: &Request) -> Result<Acted, StepFault>
        requires room { length self.old.schedule < most_steps }

        ensures able { OnOk result (IsTrue (can_act self.old thread request.now)) }
        ensures acts { IfOk result (λ acted. (line : Line)
            × Happens S.held K.got E.got Grows self.old thread request.now line self.new
            × IsAnswer acted (act self.old.shared thread request.now line).gives) }
        ensures goes_on { OnOk result (self.new.kept ≡ None) }
        ensures not_enabled { IsErrOf result StepFault.NotEnabled →
            (self.old.kept ≡ None) × IsFalse (can_act self.old thread request.now) }
        ensures refused { self.old.kept ≡ None → IsFalse (can_act self.old thread request.now) →
            IsErrOf result StepFault.NotEnabled }
        ensures unchanged { IsErrOf result StepFault.NotEnabled → self.new ≡ self.old }

        // Faults and want of memory stay.
        ensures again { IfSome self.old.kept (λ fault. (result ≡ Err fault) × (self.new ≡ self.old)) }
        ensures kept { IfErr result (λ fault. (fault ≡ StepFault.NotEnabled) ⊎ (self.new.kept ≡ Some fault)) }
        ensures read_fault { IsErrOf result StepFault.ReadFault → self.old.kept ≡ None →
            Rises (S.fault_count self.old.devices.input) (S.fault_count self.new.devices.input)
            × (reads_line request.now ≡ true) }
        ensures read_nothing { IsErrOf result StepFault.ReadFault → ReadsNothing S.held self.old self.new }
        ensures cut { IsErrOf result StepFault.WriteFault → self.old.kept ≡ None →
            (line : Line) × Happens S.held K.got E.got GrowsByPart self.old thread request.now line self.new
            × Writes (act self.old.shared thread request.now line).gives }
        ensures write_fault { IsErrOf result StepFault.WriteFault → self.old.kept ≡ None →
            Rises (K.fault_count self.old.devices.output) (K.fault_count self.new.devices.output)
            ⊎ Rises (E.fault_count self.old.devices.errors) (E.fault_count self.new.devices.errors) }
        ensures taken { LosesPart (S.held self.old.devices.input) (S.held self.new.devices.input) }
        ensures read_ahead { ¬ (IsInLine self.old.devices.ahead) → self.old.kept ≡ None →
            (self.new.devices.input ≡ self.old.devices.input) × (result ≢ Err StepFault.ReadFault) }
        ensures no_entry { IsErrOf result StepFault.NoMemory → self.new.schedule ≡ self.old.schedule }
        ensures no_piece { IsErrOf result StepFault.NoMemory →
            (self.new.devices.output ≡ self.old.devices.output) × (self.new.devices.errors ≡ self.old.devices.errors) }

        // The counts of faults rise at these alone.
        ensures steady_input { (result ≢ Err StepFault.ReadFault) →
            S.fault_count self.new.devices.input ≡ S.fault_count self.old.devices.input }
        ensures steady_output { (result ≢ Err StepFault.WriteFault) →
            K.fault_count self.new.devices.output ≡ K.fault_count self.old.devices.output }
        ensures steady_errors { (result ≢ Err StepFault.WriteFault) →
            E.fault_count self.new.devices.errors ≡ E.fault_count self.old.devices.errors }
    {
        if let Some(fault) = self.kept {
            return Err(fault);
        }
        if !self.enabled(thread, request) {
            return Err(StepFault::NotEnabled);
        }
        match self.answer(thread, request) {
            Ok(acted) => Ok(acted),
            Err(fault) => {
                self.kept = Some(fault);
                Err(fault)
            }
        }
    }

    // Answers a request that can be answered. A fault is not yet kept.
    fn answer(&mut self, thread: u32, request: &Request) -> Result<Acted, StepFault>
        requires room { length self.old.schedule < most_steps }
        requires able { IsTrue (can_act self.old thread request.now) }
        ensures acts { IfOk result (λ acted. (line : Line)
            × Happens S.held K.got E.got Grows self.old thread request.now line self.new
            × IsAnswer acted (act self.old.shared thread request.now line).gives) }
        ensures kept { self.new.kept ≡ self.old.kept }
        ensures known { result ≢ Err StepFault.NotEnabled }
        ensures read_fault { IsErrOf result StepFault.ReadFault →
            Rises (S.fault_count self.old.devices.input) (S.fault_count self.new.devices.input)
            × (reads_line request.now ≡ true) }
        ensures read_nothing { IsErrOf result StepFault.ReadFault → ReadsNothing S.held self.old self.new }
        ensures cut { IsErrOf result StepFault.WriteFault →
            (line : Line) × Happens S.held K.got E.got GrowsByPart self.old thread request.now line self.new
            × Writes (act self.old.shared thread request.now line).gives }
        ensures write_fault { IsErrOf result StepFault.WriteFault →
            Rises (K.fault_count self.old.devices.output) (K.fault_count self.new.devices.output)
            ⊎ Rises (E.fault_count self.old.devices.errors) (E.fault_count self.new.devices.errors) }
        ensures taken { LosesPart (S.held self.old.devices.input) (S.held self.new.devices.input) }
        ensures read_ahead { ¬ (IsInLine self.old.devices.ahead) →
            (self.new.devices.input ≡ self.old.devices.input) × (result ≢ Err StepFault.ReadFault) }
        ensures no_entry { IsErrOf result StepFault.NoMemory → self.new.schedule ≡ self.old.schedule }
        ensures no_piece { IsErrOf result StepFault.NoMemory →
            (self.new.devices.output ≡ self.old.devices.output) × (self.new.devices.errors ≡ self.old.devices.errors) }
        ensures steady_input { (result ≢ Err StepFault.ReadFault) →
            S.fault_count self.new.devices.input ≡ S.fault_count self.old.devices.input }
        ensures steady_output { (result ≢ Err StepFault.WriteFault) →
            K.fault_count self.new.devices.output ≡ K.fault_count self.old.devices.output }
        ensures steady_errors { (result ≢ Err StepFault.WriteFault) →
            E.fault_count self.new.devices.errors ≡ E.fault_count self.old.devices.errors }
    {
        reserve(&mut self.schedule, thread)?;
        let line = self.devices.read(request)?;
        let Ok(applied) = self.shared.apply(thread, request, line) else {
            return Err(StepFault::NoMemory);
        };
        let Applied {
            reply,
            out,
            err,
            over,
            made,
        } = applied;
        self.schedule.push_reserved(thread);
        self.devices.put(out.as_bytes(), err.as_bytes())?;
        Ok(Acted { reply, made, over })
    }

    /// Records that memory was refused elsewhere. It takes no memory.
    pub fn run_out(&mut self)
        requires going { self.old.kept ≡ None }
        ensures kept { self.new ≡ record self.old { kept = Some StepFault.NoMemory } }
    {
        self.kept = Some(StepFault::NoMemory);
    }

    /// The fault or the want of memory that was met. It takes no memory.
    pub fn kept_fault(&self) -> Option<StepFault>
        ensures kept { result ≡ self.now.kept }
        ensures known { result ≢ Some StepFault.NotEnabled }
    {
        self.kept
    }

    /// The exit code of the run, from 0 to 255, if it is over. It takes no memory.
    pub fn over(&self) -> Option<u8>
        ensures over { result ≡ self.now.shared.over }
    {
        self.shared.over()
    }

    /// Whether a thread was made and has not ended. It takes no memory.
    pub fn lives(&self, thread: u32) -> bool
        ensures lives { result ≡ is_living self.now.shared.rows thread }
    {
        self.shared.lives(thread)
    }

    /// How many threads were made, those that have ended among them. It takes no memory.
    pub fn thread_count(&self) -> u32
        ensures made { result ≡ length self.now.shared.rows }
    {
        self.shared.thread_count()
    }

    /// What a thread that was made begins with. It takes no memory.
    pub fn start_of(&self, thread: u32) -> &Start
        requires made { IsSome (row_of self.now.shared.rows thread) }
        ensures start { option_map (λ row. row.start) (row_of self.now.shared.rows thread) ≡ Some result.now }
    {
        self.shared.start_of(thread)
    }

    /// What the threads share. It takes no memory.
    pub fn shared(&self) -> &Shared
        ensures shared { result.now ≡ self.now.shared }
    {
        &self.shared
    }

    /// Standard output, as it is. It takes no memory.
    pub fn output(&self) -> &K
        ensures output { result.now ≡ self.now.devices.output }
    {
        &self.devices.output
    }

    /// Standard error, as it is. It takes no memory.
    pub fn errors(&self) -> &E
        ensures errors { result.now ≡ self.now.devices.errors }
    {
        &self.devices.errors
    }

    /// The steps that were taken.
    pub fn schedule(&self) -> &Schedule
        ensures schedule { result.now.threads ≡ self.now.schedule }
    {
        &self.schedule
    }

    /// Gives the schedule and the devices back.
    pub fn finish(self) -> (Schedule, S, K, E)
        ensures schedule { result.0.threads ≡ self.schedule }
        ensures devices { (result.1 ≡ self.devices.input) × (result.2 ≡ self.devices.output)
            × (result.3 ≡ self.devices.errors) }
    {
        let Desk {
            shared: _,
            schedule,
            devices,
            kept: _,
        } = self;
        let Devices {
            input,
            ahead: _,
            output,
            errors,
        } = devices;
        (schedule, input, output, errors)
    }
}

// Makes room for an entry of this thread.
fn reserve(schedule: &mut Schedule, thread: u32) -> Result<(), StepFault>
    requires from_one { 1 ≤ thread }
    ensures room { OnOk result (IsTrue schedule.new.has_room) }
    ensures range { OnOk result (IsInRange thread) }
    ensures same { schedule.new.threads ≡ schedule.old.threads }
    ensures fault { IfErr result (λ fault. fault ≡ StepFault.NoMemory) }
{
    if thread > MOST_NUMBER || schedule.reserve().is_err() {
        return Err(StepFault::NoMemory);
    }
    Ok(())
}
