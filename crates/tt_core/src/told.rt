ghost use Rattle.std.specs.Prelude.{◌≡◌, ◌≢◌, ◌<◌, ◌++◌, ◌∷◌, [], ◌⊎◌, None, Some, Err, IsTrue, IfOk, IfErr, OnOk};
ghost use Rattle.std.specs.Prelude.{IsErrOf, IfSome, length};
ghost use Rattle.laws_runs.specs.Lawful.{Lawful};
ghost use Rattle.tt_core.specs.inside.Standing.{IsOf};
ghost use Rattle.tt_devices.specs.Faults.{Rises};
ghost use Rattle.tt_machine.specs.Machine.{CanStep, IsBarred};
ghost use Rattle.tt_machine.specs.RunActions.{StepsOrderly};
ghost use Rattle.tt_schedule.specs.ScheduleText.{most_steps};

use crate::system::System;
use std::alloc::Global;
use tt_calls::{Boxed, Reply, Request};
use tt_copies::{copy_reply, copy_request};
use tt_devices::{Sink, Source};
use tt_run::{Acted, StepFault};
use tt_text::NoMemory;

/// What a step was.
#[derive(Debug, Drop)]
pub struct Told {
    /// What the thread asked.
    pub request: Request,
    /// What it was answered.
    pub reply: Reply,
    /// How many threads were made.
    pub made: u32,
}

/// What a step answers, if it is taken.
#[derive(Clone, Copy, Debug)]
pub(crate) enum Telling {
    /// Nothing.
    Nothing,
    /// What it was.
    Step,
}

impl Told {
    // Of a request and what answering it gave.
    pub(crate) fn of(
        alloc: Global,
        request: &Request,
        acted: &Acted,
    ) -> Result<Boxed<Self>, NoMemory>
        ensures of { IfOk result (λ told. IsOf told (Some request.now) acted.now) }
    {
        let request = copy_request(alloc, request)?;
        let reply = copy_reply(&acted.reply)?;
        let told = Boxed::new(
            alloc,
            Told {
                request,
                reply,
                made: acted.made,
            },
        )?;
        Ok(told)
    }
}

impl<S: Source, K: Sink, E: Sink> System<S, K, E> {
    ghost use Rattle.tt_core.specs.Faithful.{AsksLine, StepWrites};
    ghost use Rattle.tt_core.specs.Stage.{OfMachine, SameBeginning};
    ghost use Rattle.tt_core.specs.Telling.{IsStep};

    /// A step, as `step` takes it, and what it was.
    ///
    /// It takes memory for what it tells too: `NoMemory` if that is refused, and then the entry was added.
    pub fn step_told(&mut self, thread: u32) -> Result<Told, StepFault>
        requires { length self.old.desk.schedule < most_steps }

        ensures stepped { OnOk result (self.new.desk.schedule ≡ self.old.desk.schedule ++ thread ∷ []) }
        ensures could { OnOk result (OfMachine S.held self.old (λ machine. CanStep machine thread)) }
        ensures goes_on { OnOk result (self.new.desk.kept ≡ None) }
        ensures orderly { OnOk result (OfMachine S.held self.old (StepsOrderly thread)) }
        ensures lawful { OnOk result (Lawful self.new.setup self.new.desk.schedule) }
        ensures not_enabled { IsErrOf result StepFault.NotEnabled →
            (self.old.desk.kept ≡ None) × OfMachine S.held self.old (λ machine. IsBarred machine thread) }
        ensures unchanged { IsErrOf result StepFault.NotEnabled → self.new ≡ self.old }

        // Faults and want of memory stay.
        ensures again { IfSome self.old.desk.kept (λ fault. (result ≡ Err fault) × (self.new ≡ self.old)) }
        ensures kept { IfErr result (λ fault. (fault ≡ StepFault.NotEnabled) ⊎ (self.new.desk.kept ≡ Some fault)) }
        ensures entry_added { IsErrOf result StepFault.WriteFault → self.old.desk.kept ≡ None →
            self.new.desk.schedule ≡ self.old.desk.schedule ++ thread ∷ [] }
        ensures no_entry { IsErrOf result StepFault.ReadFault → self.new.desk.schedule ≡ self.old.desk.schedule }
        ensures at_most_one { IsErrOf result StepFault.NoMemory →
            (self.new.desk.schedule ≡ self.old.desk.schedule)
            ⊎ (self.new.desk.schedule ≡ self.old.desk.schedule ++ thread ∷ []) }
        ensures tried { IfErr result (λ fault. (fault ≢ StepFault.NotEnabled) → self.old.desk.kept ≡ None →
            OfMachine S.held self.old (λ machine. CanStep machine thread)) }
        ensures read_fault { IsErrOf result StepFault.ReadFault → self.old.desk.kept ≡ None →
            Rises (S.fault_count self.old.desk.devices.input) (S.fault_count self.new.desk.devices.input) }
        ensures a_line { IsErrOf result StepFault.ReadFault → self.old.desk.kept ≡ None →
            OfMachine S.held self.old (AsksLine thread) }
        ensures write_fault { IsErrOf result StepFault.WriteFault → self.old.desk.kept ≡ None →
            Rises (K.fault_count self.old.desk.devices.output) (K.fault_count self.new.desk.devices.output)
            ⊎ Rises (E.fault_count self.old.desk.devices.errors) (E.fault_count self.new.desk.devices.errors) }
        ensures a_piece { IsErrOf result StepFault.WriteFault → self.old.desk.kept ≡ None →
            OfMachine S.held self.old (StepWrites thread) }

        // What stays.
        ensures same_beginning { SameBeginning self.old self.new }
        ensures no_output { self.new.desk.schedule ≡ self.old.desk.schedule →
            self.new.desk.devices.output ≡ self.old.desk.devices.output }
        ensures no_errors { self.new.desk.schedule ≡ self.old.desk.schedule →
            self.new.desk.devices.errors ≡ self.old.desk.devices.errors }
        ensures reads_steady { (result ≢ Err StepFault.ReadFault) →
            S.fault_count self.new.desk.devices.input ≡ S.fault_count self.old.desk.devices.input }
        ensures writes_steady { (result ≢ Err StepFault.WriteFault) →
            (K.fault_count self.new.desk.devices.output ≡ K.fault_count self.old.desk.devices.output)
            × (E.fault_count self.new.desk.devices.errors ≡ E.fault_count self.old.desk.devices.errors) }

        // What is told.
        ensures told { IfOk result (λ told. OfMachine S.held self.old (IsStep thread told)) }
    {
        match self.take_step(thread, Telling::Step) {
            Ok(Some(told)) => Ok(told.into_inner()),
            Ok(None) => unreachable!(),
            Err(fault) => Err(fault),
        }
    }
}
