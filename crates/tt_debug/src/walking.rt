ghost use Rattle.std.specs.Prelude.{◌≡◌, ◌<◌, ◌≤◌, ◌⊎◌, ℕ, List, length, IfOk, slice_index};
ghost use Rattle.tt_core.specs.Stage.{SameBeginning};
ghost use Rattle.tt_debug.specs.Shown.{ComesTo};
ghost use Rattle.tt_debug.specs.inside.Walking.{Goes, IsAt};
ghost use Rattle.tt_schedule.specs.ScheduleText.{most_steps};

use tt_core::{StepFault, System};
use tt_devices::{Sink, Source};
use tt_schedule::Schedule;
use tt_text::NoMemory;

/// Goes forth along the schedule from one place to another that is wanted, as far as its entries can be taken.
///
/// `NoMemory` if memory is refused, or a device fails for want of it.
pub(crate) fn go_to<S: Source, K: Sink, E: Sink>(
    system: &mut System<S, K, E>,
    given: &Schedule,
    from: u64,
    wanted: u64,
) -> Result<u64, NoMemory>
    requires at { IsAt S.held K.got E.got given.now.threads from system.old }
    requires forth { from ≤ wanted }
    ensures at { IfOk result (λ place. IsAt S.held K.got E.got given.now.threads place system.new) }
    ensures small { IfOk result (λ place. place ≤ most_steps) }
    ensures comes { IfOk result (λ place. ComesTo system.old.setup given.now.threads wanted place) }
    ensures same { SameBeginning system.old system.new }
{
    let end = end_of(given, wanted);
    for place in from..end {
        if !take_entry(system, given, place)? {
            return Ok(place);
        }
    }
    Ok(end)
}

/// The wanted place, or the end of the schedule if that comes before it.
fn end_of(given: &Schedule, wanted: u64) -> u64
    ensures within { (result ≤ length given.now.threads) × (result ≤ wanted) }
    ensures small { length given.now.threads ≤ most_steps }
    ensures end { (result ≡ wanted) ⊎ ((result < wanted) × (result ≡ length given.now.threads)) }
{
    let end = given.len();
    if wanted <= end {
        return wanted;
    }
    end
}

/// Takes the entry at this place; whether it could be taken.
fn take_entry<S: Source, K: Sink, E: Sink>(
    system: &mut System<S, K, E>,
    given: &Schedule,
    place: u64,
) -> Result<bool, NoMemory>
    requires at { IsAt S.held K.got E.got given.now.threads place system.old }
    requires entry { place < length given.now.threads }
    requires small { length given.now.threads ≤ most_steps }
    ensures goes { IfOk result (λ went. Goes S.held K.got E.got went given.now.threads place system.new) }
    ensures same { SameBeginning system.old system.new }
{
    match system.step(given.at(place)) {
        Ok(()) => Ok(true),
        Err(StepFault::NotEnabled) => Ok(false),
        Err(_) => Err(NoMemory),
    }
}
