ghost use Rattle.std.specs.Prelude.{◌≡◌, ◌≤◌, []};
ghost use Rattle.tt_schedule.specs.ScheduleText.{most_steps};

use crate::begun::{Begun, Trial};
use crate::chooser::Chooser;
use std::alloc::Global;
use tt_core::{StepFault, System};
use tt_devices::{MemorySink, Sink, Source};
use tt_session::{End, Finish};
use tt_text::NoMemory;

/// A run over devices in memory whose steps are chosen so, at most so many.
///
/// `NoMemory` if memory for it is refused.
pub(crate) fn chosen_trial(
    alloc: Global,
    begun: &Begun,
    chooser: &mut Chooser,
    steps: u32,
) -> Result<Trial, NoMemory>
    requires { steps ≤ most_steps }
{
    let setup = begun.setup(alloc)?;
    let input = begun.source(alloc)?;
    let output = MemorySink::new(alloc, Vec::new(alloc));
    let errors = MemorySink::new(alloc, Vec::new(alloc));
    let Ok(mut system) = System::new(alloc, setup, input, output, errors) else {
        return Err(NoMemory);
    };
    let end = take(&mut system, chooser, steps);
    let (schedule, input, output, errors) = system.finish();
    Ok(Finish {
        end,
        schedule,
        input,
        output,
        errors,
    })
}

/// Takes the steps.
fn take<S: Source, K: Sink, E: Sink>(
    system: &mut System<S, K, E>,
    chooser: &mut Chooser,
    steps: u32,
) -> End
    requires fresh { system.old.desk.schedule ≡ [] }
    requires room { steps ≤ most_steps }
{
    for _ in 0..steps {
        let Ok(next) = chooser.next(system) else {
            return End::NoMemory;
        };
        let Some(thread) = next else {
            return end_of(system);
        };
        match system.step(thread) {
            Ok(()) => {}
            Err(StepFault::NotEnabled) => return End::Stalled,
            Err(StepFault::ReadFault) => return End::ReadFault,
            Err(StepFault::WriteFault) => return End::WriteFault,
            Err(StepFault::NoMemory) => return End::NoMemory,
        }
    }
    match system.next_enabled(0) {
        Some(_) => End::StepLimit(u64::from(steps)),
        None => end_of(system),
    }
}

/// How a run ended that has no thread that can go on.
fn end_of<S: Source, K: Sink, E: Sink>(system: &System<S, K, E>) -> End {
    match system.ended() {
        Some(code) => End::Done(code),
        None => End::Stalled,
    }
}
