ghost use Rattle.std.specs.Prelude.{◌≡◌, ◌≢◌, ◌≤◌, ◌<◌, ◌+◌, ◌⊎◌, ◌++◌, ◌∷◌, [], List, None, OnOk, length};
ghost use Rattle.tt_before.specs.Steps.{Entry, Stepped, step};
ghost use Rattle.tt_before.specs.inside.Told.{IsOrderOf};
ghost use Rattle.tt_core.specs.Stage.{SameBeginning};
ghost use Rattle.tt_devices.specs.Faults.{Rises};
ghost use Rattle.tt_session.specs.Choosing.{Allows, Replaying};
ghost use Rattle.tt_session.specs.Ending.{EndsAs, cause_of};
ghost use Rattle.tt_session.specs.Telling.{IsFollowed, ToldAs};
ghost use Rattle.tt_session.specs.inside.Following.{AtRun};

use crate::status::End;
use tt_before::Order;
use tt_core::{StepFault, System, Told};
use tt_devices::{Sink, Source};
use tt_schedule::Schedule;
use tt_text::NoMemory;

/// Takes the steps of the schedule, as far as they go, and adds what each was to the order of the steps.
/// At most 10,000 entries.
pub(crate) fn follow_told<S: Source, K: Sink, E: Sink>(
    system: &mut System<S, K, E>,
    given: &Schedule,
    order: &mut Order,
) -> End
    requires fresh { system.old.desk.schedule ≡ [] }
    requires going { system.old.desk.kept ≡ None }
    requires few { length given.now.threads ≤ 10000 }
    requires empty { IsOrderOf [] order.old }
    ensures allowed { Allows (Replaying given.now.threads) system.new.desk.schedule }
    ensures ends { AtRun S.held system.new (λ begun machine.
        EndsAs result (Replaying given.now.threads) machine system.new.desk.schedule) }
    ensures told { IsFollowed result → AtRun S.held system.new (λ begun machine.
        ToldAs begun machine system.new.desk.schedule order.new) }
    ensures no_output { system.new.desk.schedule ≡ [] →
        system.new.desk.devices.output ≡ system.old.desk.devices.output }
    ensures no_errors { system.new.desk.schedule ≡ [] →
        system.new.desk.devices.errors ≡ system.old.desk.devices.errors }
    ensures kept { result ≢ End.NoMemory → system.new.desk.kept ≡ cause_of result }
    ensures kept_or_not { result ≡ End.NoMemory →
        (system.new.desk.kept ≡ None) ⊎ (system.new.desk.kept ≡ cause_of result) }
    ensures read_fault { result ≡ End.ReadFault →
        Rises (S.fault_count system.old.desk.devices.input) (S.fault_count system.new.desk.devices.input) }
    ensures reads_steady { result ≢ End.ReadFault →
        S.fault_count system.new.desk.devices.input ≡ S.fault_count system.old.desk.devices.input }
    ensures write_fault { result ≡ End.WriteFault →
        Rises (K.fault_count system.old.desk.devices.output) (K.fault_count system.new.desk.devices.output)
        ⊎ Rises (E.fault_count system.old.desk.devices.errors) (E.fault_count system.new.desk.devices.errors) }
    ensures writes_steady { result ≢ End.WriteFault →
        (K.fault_count system.new.desk.devices.output ≡ K.fault_count system.old.desk.devices.output)
        × (E.fault_count system.new.desk.devices.errors ≡ E.fault_count system.old.desk.devices.errors) }
    ensures same_beginning { SameBeginning system.old system.new }
{
    for place in 0..given.len() {
        let thread = given.at(place);
        let told = match system.step_told(thread) {
            Ok(told) => told,
            Err(StepFault::NotEnabled) => return End::Barred(place + 1),
            Err(StepFault::ReadFault) => return End::ReadFault,
            Err(StepFault::WriteFault) => return End::WriteFault,
            Err(StepFault::NoMemory) => return End::NoMemory,
        };
        match add(order, thread, told) {
            Ok(()) => {}
            Err(_) => return End::NoMemory,
        }
    }
    match system.ended() {
        Some(code) => End::Done(code),
        None => End::ScheduleEnded,
    }
}

// What a step was is added to the order.
fn add(order: &mut Order, thread: u32, told: Told) -> Result<(), NoMemory>
    requires short { order.old.count < 10000 }
    ensures added { (entries : List Entry) → IsOrderOf entries order.old →
        OnOk result (IsOrderOf (entries ++ Stepped (step thread told.request told.reply told.made) ∷ []) order.new) }
    ensures count { OnOk result (order.new.count ≡ order.old.count + 1) }
{
    order.add(thread, &told.request, &told.reply, told.made)?;
    Ok(())
}
