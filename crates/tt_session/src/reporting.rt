//! Runs after a schedule that report of themselves who waits for whom, or which steps race.
ghost use Rattle.std.specs.Prelude.{◌≡◌, ◌≤◌, [], None, IfErr, IfOk, length};
ghost use Rattle.tt_session.specs.Asking.{IsTooMuch};
ghost use Rattle.tt_session.specs.Choosing.{Replaying};
ghost use Rattle.tt_session.specs.Reporting.{IsReport, RacesAfter, WaitsAfter};
ghost use Rattle.tt_session.specs.Running.{RunLeaves};
ghost use Rattle.tt_session.specs.Status.{ended_status};
ghost use Rattle.tt_session.specs.Telling.{IsFollowed};
ghost use Rattle.tt_session.specs.inside.Saying.{SaysRaces, SaysRacesOf, SaysWaits, without_memory};
ghost use Rattle.tt_words.specs.CodeValues.{report_as_text};

use crate::ended::Finish;
use crate::run::{Course, follow, run_course};
use crate::status::End;
use crate::telling::follow_told;
use std::alloc::Global;
use tt_before::Order;
use tt_core::{Setup, System};
use tt_devices::{Sink, Source};
use tt_reports::races_text;
use tt_run::NewFault;
use tt_schedule::Schedule;
use tt_text::{NoMemory, Text};
use tt_waiting::waits_report;
use tt_words::Report;

/// How a run finished, and the bytes of its report.
#[derive(Drop)]
pub(crate) struct Reported<S, K, E> {
    pub(crate) finish: Finish<S, K, E>,
    pub(crate) more: Text,
}

/// Runs a script after a schedule, and makes the report that is asked for.
///
/// If memory for the run or for the report is refused, it ends with `NoMemory`, and there is no report.
pub(crate) fn run_reported<S: Source, K: Sink, E: Sink>(
    alloc: Global,
    setup: Setup,
    given: Schedule,
    report: &Report<'_>,
    input: S,
    output: K,
    errors: E,
) -> Reported<S, K, E>
    requires few { ¬ (IsTooMuch (report_as_text report.now) (length given.threads)) }
    ensures leaves { RunLeaves S.Source K.Sink E.Sink setup (Replaying given.threads)
        (record { input = input; output = output; errors = errors }) result.finish }
    ensures report { IsReport (report_as_text report.now) (ended_status result.finish.end) setup (S.held input)
        result.finish.schedule.threads result.more }
{
    match report {
        Report::Waits => run_for_waits(alloc, setup, &given, input, output, errors),
        Report::Races => run_for_races(alloc, setup, &given, input, output, errors),
        Report::None => run_unreported(alloc, setup, given, input, output, errors),
        Report::Debug(_) => run_unreported(alloc, setup, given, input, output, errors),
    }
}

/// Runs a script after a schedule, with no report.
fn run_unreported<S: Source, K: Sink, E: Sink>(
    alloc: Global,
    setup: Setup,
    given: Schedule,
    input: S,
    output: K,
    errors: E,
) -> Reported<S, K, E>
    ensures leaves { RunLeaves S.Source K.Sink E.Sink setup (Replaying given.threads)
        (record { input = input; output = output; errors = errors }) result.finish }
    ensures no_report { result.more ≡ [] }
{
    let course = Course::After(given);
    let finish = run_course(alloc, setup, &course, input, output, errors);
    let more = Text::new(alloc);
    Reported { finish, more }
}

/// The same for the report of who waits for whom.
fn run_for_waits<S: Source, K: Sink, E: Sink>(
    alloc: Global,
    setup: Setup,
    given: &Schedule,
    input: S,
    output: K,
    errors: E,
) -> Reported<S, K, E>
    ensures leaves { RunLeaves S.Source K.Sink E.Sink setup (Replaying given.now.threads)
        (record { input = input; output = output; errors = errors }) result.finish }
    ensures report { WaitsAfter (ended_status result.finish.end) setup (S.held input)
        result.finish.schedule.threads result.more }
{
    match System::new(alloc, setup, input, output, errors) {
        Err(fault) => not_begun(alloc, fault),
        Ok(mut system) => {
            let end = follow(&mut system, given);
            let more = waits_after(alloc, end, &system);
            let (schedule, input, output, errors) = system.finish();
            let finish = Finish {
                end,
                schedule,
                input,
                output,
                errors,
            };
            with_report(alloc, finish, more)
        }
    }
}

/// The same for the report of races.
fn run_for_races<S: Source, K: Sink, E: Sink>(
    alloc: Global,
    setup: Setup,
    given: &Schedule,
    input: S,
    output: K,
    errors: E,
) -> Reported<S, K, E>
    requires few { length given.now.threads ≤ 10000 }
    ensures leaves { RunLeaves S.Source K.Sink E.Sink setup (Replaying given.now.threads)
        (record { input = input; output = output; errors = errors }) result.finish }
    ensures report { RacesAfter (ended_status result.finish.end) setup (S.held input)
        result.finish.schedule.threads result.more }
{
    match System::new(alloc, setup, input, output, errors) {
        Err(fault) => not_begun(alloc, fault),
        Ok(mut system) => {
            let mut order = Order::new(alloc);
            let end = follow_told(&mut system, given, &mut order);
            let more = races_after(alloc, end, &order);
            let (schedule, input, output, errors) = system.finish();
            let finish = Finish {
                end,
                schedule,
                input,
                output,
                errors,
            };
            with_report(alloc, finish, more)
        }
    }
}

/// What is left if memory for a machine was refused.
fn not_begun<S, K, E>(alloc: Global, fault: NewFault<S, K, E>) -> Reported<S, K, E>
    ensures end { result.finish.end ≡ End.NoMemory }
    ensures no_step { result.finish.schedule.threads ≡ [] }
    ensures streams { (result.finish.input ≡ fault.input) × (result.finish.output ≡ fault.output)
        × (result.finish.errors ≡ fault.errors) }
    ensures no_report { result.more ≡ [] }
{
    let finish = Finish {
        end: End::NoMemory,
        schedule: Schedule::new(alloc),
        input: fault.input,
        output: fault.output,
        errors: fault.errors,
    };
    let more = Text::new(alloc);
    Reported { finish, more }
}

/// The report joins the run; if memory for it was refused, the run ends so, with no report.
fn with_report<S, K, E>(
    alloc: Global,
    finish: Finish<S, K, E>,
    more: Result<Text, NoMemory>,
) -> Reported<S, K, E>
    ensures told { IfOk more (λ more. (result.finish ≡ finish) × (result.more ≡ more)) }
    ensures untold { IfErr more (λ fault. (result.finish ≡ without_memory finish) × (result.more ≡ [])) }
{
    match more {
        Ok(more) => Reported { finish, more },
        Err(_) => {
            let finish = Finish {
                end: End::NoMemory,
                ..finish
            };
            let more = Text::new(alloc);
            Reported { finish, more }
        }
    }
}

/// The report of who waits for whom in a system after its last step, if its schedule ended before the run.
fn waits_after<S: Source, K: Sink, E: Sink>(
    alloc: Global,
    end: End,
    system: &System<S, K, E>,
) -> Result<Text, NoMemory>
    requires going { end ≡ End.ScheduleEnded → system.now.desk.kept ≡ None }
    ensures report { IfOk result (SaysWaits S.held end system.now) }
    ensures late { IfErr result (λ fault. end ≡ End.ScheduleEnded) }
{
    match end {
        End::ScheduleEnded => {
            let text = waits_report(alloc, system)?;
            Ok(text)
        }
        _ => Ok(Text::new(alloc)),
    }
}

/// The report of the races of an order, if all steps of the schedule were taken.
fn races_after(alloc: Global, end: End, order: &Order) -> Result<Text, NoMemory>
    ensures report { IfOk result (SaysRaces end order.now) }
    ensures late { IfErr result (λ fault. IsFollowed end) }
{
    match end {
        End::Done(_) => {
            let text = text_of_races(alloc, order)?;
            Ok(text)
        }
        End::ScheduleEnded => {
            let text = text_of_races(alloc, order)?;
            Ok(text)
        }
        _ => Ok(Text::new(alloc)),
    }
}

fn text_of_races(alloc: Global, order: &Order) -> Result<Text, NoMemory>
    ensures { IfOk result (SaysRacesOf order.now) }
{
    let races = order.races()?;
    let text = races_text(alloc, &races)?;
    Ok(text)
}
