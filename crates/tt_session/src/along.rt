ghost use Rattle.std.specs.Prelude.{◌≡◌, ◌≢◌, ◌≤◌, ◌⊎◌, [], Some, None, IfSome, IfNone};
ghost use Rattle.tt_core.specs.Stage.{IsNextAfter, OfMachine, SameBeginning};
ghost use Rattle.tt_devices.specs.Faults.{Rises};
ghost use Rattle.tt_machine.specs.Machine.{CanStep};
ghost use Rattle.tt_schedule.specs.ScheduleText.{most_steps};
ghost use Rattle.tt_session.specs.Choosing.{Allows, Freely};
ghost use Rattle.tt_session.specs.Ending.{EndsAs, cause_of};
ghost use Rattle.tt_session.specs.inside.Following.{AtRun};

use crate::status::End;
use tt_core::{StepFault, System};
use tt_devices::{Sink, Source};
use tt_schedule::Schedule;

/// Takes the steps of a schedule as far as its threads can take them: an entry whose thread can't is left out. After
/// them the thread of the last step goes on as long as it can, and then the one that is next in turn. There are at most
/// so many steps.
pub(crate) fn go_along<S: Source, K: Sink, E: Sink>(
    system: &mut System<S, K, E>,
    given: &Schedule,
    steps: u32,
) -> End
    requires fresh { system.old.desk.schedule ≡ [] }
    requires going { system.old.desk.kept ≡ None }
    requires room { steps ≤ most_steps }
    ensures allowed { Allows (Freely steps) system.new.desk.schedule }
    ensures ends { AtRun S.held system.new (λ begun machine.
        EndsAs result (Freely steps) machine system.new.desk.schedule) }
    ensures no_output { system.new.desk.schedule ≡ [] →
        system.new.desk.devices.output ≡ system.old.desk.devices.output }
    ensures no_errors { system.new.desk.schedule ≡ [] →
        system.new.desk.devices.errors ≡ system.old.desk.devices.errors }
    ensures kept { system.new.desk.kept ≡ cause_of result }
    ensures read_fault { result ≡ End.ReadFault →
        Rises (S.fault_count system.old.desk.devices.input) (S.fault_count system.new.desk.devices.input) }
    ensures reads_steady { result ≢ End.ReadFault →
        S.fault_count system.new.desk.devices.input ≡ S.fault_count system.old.desk.devices.input }
    ensures write_fault { result ≡ End.WriteFault →
        Rises (K.fault_count system.old.desk.devices.output) (K.fault_count system.new.desk.devices.output)
        ⊎ Rises (E.fault_count system.old.desk.devices.errors) (E.fault_count system.new.desk.devices.errors) }
    ensures writes_steady { result ≢ End.WriteFault →
        (K.fault_count system.new.desk.devices.output ≡ K.fault_count system.old.desk.devices.output)
        × (E.fault_count system.new.desk.devices.errors ≡ E.fault_count system.old.desk.devices.errors) }
    ensures same_beginning { SameBeginning system.old system.new }
{
    let mut last = 0;
    let mut place = 0;
    for _ in 0..steps {
        let Some((thread, after)) = next_along(system, given, place, last) else {
            return match system.ended() {
                Some(code) => End::Done(code),
                None => End::Stalled,
            };
        };
        place = after;
        match system.step(thread) {
            Ok(()) => last = thread,
            // Who was found able to take a step takes it.
            Err(StepFault::NotEnabled) => return End::Stalled,
            Err(StepFault::ReadFault) => return End::ReadFault,
            Err(StepFault::WriteFault) => return End::WriteFault,
            Err(StepFault::NoMemory) => return End::NoMemory,
        }
    }
    match system.next_enabled(last) {
        Some(_) => End::StepLimit(u64::from(steps)),
        None => match system.ended() {
            Some(code) => End::Done(code),
            None => End::Stalled,
        },
    }
}

/// The thread of the next step: that of the first entry from a place on whose thread can take one, or else that of the
/// last step, or the one that is next in turn after it; and the place after the entries that were looked at. `None`
/// exactly if no thread can take a step.
fn next_along<S: Source, K: Sink, E: Sink>(
    system: &System<S, K, E>,
    given: &Schedule,
    place: u64,
    last: u32,
) -> Option<(u32, u64)>
    ensures can { IfSome result (λ found. system.now.desk.kept ≡ None →
        OfMachine S.held system.now (λ machine. CanStep machine found.0)) }
    ensures none { IfNone result (system.now.desk.kept ≡ None → OfMachine S.held system.now (IsNextAfter last None)) }
{
    let mut place = place;
    while place < given.len() {
        let thread = given.at(place);
        place += 1;
        if system.enabled(thread) {
            return Some((thread, place));
        }
    }
    if system.enabled(last) {
        return Some((last, place));
    }
    match system.next_enabled(last) {
        Some(thread) => Some((thread, place)),
        None => None,
    }
}
