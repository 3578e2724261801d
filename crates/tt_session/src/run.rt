ghost use Rattle.std.specs.Prelude.{◌≡◌, ◌≢◌, ◌≤◌, ◌⊎◌, [], Some, None};
ghost use Rattle.tt_core.specs.Stage.{SameBeginning};
ghost use Rattle.tt_devices.specs.Faults.{Rises};
ghost use Rattle.tt_schedule.specs.ScheduleText.{most_steps};
ghost use Rattle.tt_session.specs.Choosing.{Allows, Chooses, HasRoom, InTurn, Replaying, mode_of};
ghost use Rattle.tt_session.specs.Ending.{EndsAs, cause_of};
ghost use Rattle.tt_session.specs.Running.{RunLeaves};
ghost use Rattle.tt_session.specs.inside.Following.{AtRun};

use crate::along::go_along;
use crate::ended::Finish;
use crate::status::End;
use std::alloc::Global;
use tt_core::{Setup, StepFault, System};
use tt_devices::{Sink, Source};
use tt_schedule::Schedule;

/// How the steps of a run are chosen. A number of steps is at most 16,777,216.
#[derive(Drop)]
pub enum Course {
    /// They are those of a schedule.
    After(Schedule),
    /// Each is of the thread that is next in turn, and there are at most so many.
    InTurn(u32),
    /// They are those of a schedule, but for entries whose threads can't take a step when these come up; after them
    /// the thread of the last step goes on, and then the one that is next in turn. There are at most so many.
    Along(Schedule, u32),
}

/// Runs a script whose steps are chosen so.
///
/// If memory for the run is refused, it ends with `NoMemory`, and the streams are as they were given.
pub fn run_course<S: Source, K: Sink, E: Sink>(
    alloc: Global,
    setup: Setup,
    course: &Course,
    input: S,
    output: K,
    errors: E,
) -> Finish<S, K, E>
    requires { HasRoom course.now }
    ensures { RunLeaves S.Source K.Sink E.Sink setup (mode_of course.now)
        (record { input = input; output = output; errors = errors }) result }
{
    match System::new(alloc, setup, input, output, errors) {
        Err(fault) => Finish {
            end: End::NoMemory,
            schedule: Schedule::new(alloc),
            input: fault.input,
            output: fault.output,
            errors: fault.errors,
        },
        Ok(mut system) => {
            let end = take(&mut system, course);
            let (schedule, input, output, errors) = system.finish();
            Finish {
                end,
                schedule,
                input,
                output,
                errors,
            }
        }
    }
}

/// Takes the steps.
fn take<S: Source, K: Sink, E: Sink>(system: &mut System<S, K, E>, course: &Course) -> End
    requires fresh { system.old.desk.schedule ≡ [] }
    requires going { system.old.desk.kept ≡ None }
    requires room { HasRoom course.now }
    ensures allowed { Allows (mode_of course.now) system.new.desk.schedule }
    ensures ends { AtRun S.held system.new (λ begun machine. Chooses (mode_of course.now) begun system.new.desk.schedule
        × EndsAs result (mode_of course.now) machine system.new.desk.schedule) }
    ensures no_output { system.new.desk.schedule ≡ [] →
        system.new.desk.devices.output ≡ system.old.desk.devices.output }
    ensures no_errors { system.new.desk.schedule ≡ [] →
        system.new.desk.devices.errors ≡ system.old.desk.devices.errors }
    ensures kept { system.new.desk.kept ≡ cause_of result }
    ensures read_fault { result ≡ End.ReadFault →
        Rises (S.fault_count system.old.desk.devices.input) (S.fault_count system.new.desk.devices.input) }
    ensures reads_steady { result ≢ End.ReadFault →
        S.fault_count system.new.desk.devices.input ≡ S.fault_count system.old.desk.devices.input }
    ensures write_fault { result ≡ End.WriteFault →
        Rises (K.fault_count system.old.desk.devices.output) (K.fault_count system.new.desk.devices.output)
        ⊎ Rises (E.fault_count system.old.desk.devices.errors) (E.fault_count system.new.desk.devices.errors) }
    ensures writes_steady { result ≢ End.WriteFault →
        (K.fault_count system.new.desk.devices.output ≡ K.fault_count system.old.desk.devices.output)
        × (E.fault_count system.new.desk.devices.errors ≡ E.fault_count system.old.desk.devices.errors) }
    ensures same_beginning { SameBeginning system.old system.new }
{
    match course {
        Course::After(given) => follow(system, given),
        Course::InTurn(steps) => take_turns(system, *steps),
        Course::Along(given, steps) => go_along(system, given, *steps),
    }
}

/// Takes the steps of the schedule, as far as they go.
pub(crate) fn follow<S: Source, K: Sink, E: Sink>(
    system: &mut System<S, K, E>,
    given: &Schedule,
) -> End
    requires fresh { system.old.desk.schedule ≡ [] }
    requires going { system.old.desk.kept ≡ None }
    ensures allowed { Allows (Replaying given.now.threads) system.new.desk.schedule }
    ensures ends { AtRun S.held system.new (λ begun machine.
        EndsAs result (Replaying given.now.threads) machine system.new.desk.schedule) }
    ensures no_output { system.new.desk.schedule ≡ [] →
        system.new.desk.devices.output ≡ system.old.desk.devices.output }
    ensures no_errors { system.new.desk.schedule ≡ [] →
        system.new.desk.devices.errors ≡ system.old.desk.devices.errors }
    ensures kept { system.new.desk.kept ≡ cause_of result }
    ensures read_fault { result ≡ End.ReadFault →
        Rises (S.fault_count system.old.desk.devices.input) (S.fault_count system.new.desk.devices.input) }
    ensures reads_steady { result ≢ End.ReadFault →
        S.fault_count system.new.desk.devices.input ≡ S.fault_count system.old.desk.devices.input }
    ensures write_fault { result ≡ End.WriteFault →
        Rises (K.fault_count system.old.desk.devices.output) (K.fault_count system.new.desk.devices.output)
        ⊎ Rises (E.fault_count system.old.desk.devices.errors) (E.fault_count system.new.desk.devices.errors) }
    ensures writes_steady { result ≢ End.WriteFault →
        (K.fault_count system.new.desk.devices.output ≡ K.fault_count system.old.desk.devices.output)
        × (E.fault_count system.new.desk.devices.errors ≡ E.fault_count system.old.desk.devices.errors) }
    ensures same_beginning { SameBeginning system.old system.new }
{
    for place in 0..given.len() {
        match system.step(given.at(place)) {
            Ok(()) => {}
            Err(StepFault::NotEnabled) => return End::Barred(place + 1),
            Err(StepFault::ReadFault) => return End::ReadFault,
            Err(StepFault::WriteFault) => return End::WriteFault,
            Err(StepFault::NoMemory) => return End::NoMemory,
        }
    }
    match system.ended() {
        Some(code) => End::Done(code),
        None => End::ScheduleEnded,
    }
}

/// Lets the threads take their steps in turn: the first that can take one, and after each the next above it that can,
/// or else the first of all. There are at most so many steps.
fn take_turns<S: Source, K: Sink, E: Sink>(system: &mut System<S, K, E>, steps: u32) -> End
    requires fresh { system.old.desk.schedule ≡ [] }
    requires going { system.old.desk.kept ≡ None }
    requires room { steps ≤ most_steps }
    ensures allowed { Allows (InTurn steps) system.new.desk.schedule }
    ensures ends { AtRun S.held system.new (λ begun machine. Chooses (InTurn steps) begun system.new.desk.schedule
        × EndsAs result (InTurn steps) machine system.new.desk.schedule) }
    ensures no_output { system.new.desk.schedule ≡ [] →
        system.new.desk.devices.output ≡ system.old.desk.devices.output }
    ensures no_errors { system.new.desk.schedule ≡ [] →
        system.new.desk.devices.errors ≡ system.old.desk.devices.errors }
    ensures kept { system.new.desk.kept ≡ cause_of result }
    ensures read_fault { result ≡ End.ReadFault →
        Rises (S.fault_count system.old.desk.devices.input) (S.fault_count system.new.desk.devices.input) }
    ensures reads_steady { result ≢ End.ReadFault →
        S.fault_count system.new.desk.devices.input ≡ S.fault_count system.old.desk.devices.input }
    ensures write_fault { result ≡ End.WriteFault →
        Rises (K.fault_count system.old.desk.devices.output) (K.fault_count system.new.desk.devices.output)
        ⊎ Rises (E.fault_count system.old.desk.devices.errors) (E.fault_count system.new.desk.devices.errors) }
    ensures writes_steady { result ≢ End.WriteFault →
        (K.fault_count system.new.desk.devices.output ≡ K.fault_count system.old.desk.devices.output)
        × (E.fault_count system.new.desk.devices.errors ≡ E.fault_count system.old.desk.devices.errors) }
    ensures same_beginning { SameBeginning system.old system.new }
{
    let mut last = 0;
    for _ in 0..steps {
        let Some(thread) = system.next_enabled(last) else {
            return match system.ended() {
                Some(code) => End::Done(code),
                None => End::Stalled,
            };
        };
        match system.step(thread) {
            Ok(()) => last = thread,
            // Who was found able to take a step takes it.
            Err(StepFault::NotEnabled) => return End::Stalled,
            Err(StepFault::ReadFault) => return End::ReadFault,
            Err(StepFault::WriteFault) => return End::WriteFault,
            Err(StepFault::NoMemory) => return End::NoMemory,
        }
    }
    match system.next_enabled(last) {
        Some(_) => End::StepLimit(u64::from(steps)),
        None => match system.ended() {
            Some(code) => End::Done(code),
            None => End::Stalled,
        },
    }
}
