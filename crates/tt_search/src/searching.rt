ghost use Rattle.std.specs.Prelude.{◌≡◌, ◌≤◌, ◌↔◌, IsTrue, map, string_bytes};
ghost use Rattle.tt_schedule.specs.ScheduleText.{most_steps};
ghost use Rattle.tt_search.specs.Searched.{AnswersSearch, IsReported, IsSearched, PutsRefusal};
ghost use Rattle.tt_search.specs.inside.Shown.{HasShown, IsInRange};
ghost use Rattle.tt_search_words.specs.CodeValues.{search_as_text};
ghost use Rattle.tt_session.specs.Asking.{BeginsPlain};
ghost use Rattle.tt_session.specs.Choosing.{Freely};
ghost use Rattle.tt_session.specs.Status.{refused_status};
ghost use Rattle.tt_words.specs.CodeValues.{plain_as_text};

use crate::begun::{Begun, Trial};
use crate::hunt::{Find, Hunt};
use crate::judging::{is_find, is_out_of_memory};
use crate::reporting::{
    report_counts, report_find, report_progress, report_replay, report_shrunk, report_turn,
    report_usage,
};
use crate::rounds::{Round, run_round};
use crate::rows::switch_count;
use crate::searched::{SearchEnd, Searched};
use crate::shrinking::Shrunk;
use std::alloc::Global;
use std::thread::Threads;
use tt_devices::{Files, MemorySource, Sink, Source, Unread, read_whole};
use tt_schedule::Schedule;
use tt_search_words::{Search, read_words};
use tt_session::{Course, Ended, Refusal, Status, close, prepare_plain, put_status, run_course};
use tt_text::NoMemory;

/// Looks for a schedule under which the script that the words name ends otherwise than with its threads in turn, runs
/// it along that schedule over these files and streams, and reports on standard error what was made.
///
/// The words are those of `tt_search_words::read_words`. Each run gets all of standard input, which is read first. What
/// a run of the search writes is kept in memory; what is put on standard output is that of the find alone.
pub fn search<R: Threads + Sync, F: Files, S: Source, K: Sink, E: Sink>(
    rt: &R,
    alloc: Global,
    words: &[String],
    files: &mut F,
    input: S,
    output: K,
    errors: E,
) -> Searched<S, K, E>
    ensures answer { IsSearched F.Files S.Source K.Sink E.Sink (map string_bytes words.now)
        files.old files.new (record { input = input; output = output; errors = errors }) result }
{
    match read_words(alloc, words) {
        Ok(Some(asked)) => look(rt, alloc, &asked, files, input, output, errors),
        Ok(None) => refuse_words(input, output, errors),
        Err(_) => refuse(Refusal::NoMemory, input, output, errors),
    }
}

/// What a search leaves whose words ask for nothing.
fn refuse_words<S, K, E: Sink>(input: S, output: K, errors: E) -> Searched<S, K, E>
    ensures end { result.end ≡ SearchEnd.Refused Status.Usage }
    ensures output { result.output ≡ output }
    ensures reported { IsReported (E.got errors) (E.got result.errors) }
{
    let mut errors = errors;
    report_usage(&mut errors);
    Searched {
        end: SearchEnd::Refused(Status::Usage),
        input,
        output,
        errors,
    }
}

/// What is left if there is no search for this reason: the status of a call of `tclthread`, and its line. Of wrong usage
/// the line is how this program is called.
pub fn refuse<S, K, E: Sink>(why: Refusal, input: S, output: K, errors: E) -> Searched<S, K, E>
    ensures end { result.end ≡ SearchEnd.Refused (refused_status why) }
    ensures output { result.output ≡ output }
    ensures reported { IsReported (E.got errors) (E.got result.errors) }
    ensures line { PutsRefusal E.Sink (refused_status why) errors result.errors }
{
    let mut errors = errors;
    let status = why.status();
    put_refusal(&status, &mut errors);
    Searched {
        end: SearchEnd::Refused(status),
        input,
        output,
        errors,
    }
}

/// Puts the line of a refusal.
fn put_refusal<E: Sink>(status: &Status, errors: &mut E)
    ensures reported { IsReported (E.got errors.old) (E.got errors.new) }
    ensures line { PutsRefusal E.Sink status.now errors.old errors.new }
{
    let before = errors.faults();
    if is_usage(status) {
        report_usage(errors);
    } else {
        put_status(status, before, errors);
    }
}

fn is_usage(status: &Status) -> bool
    ensures { IsTrue result ↔ (status.now ≡ Status.Usage) }
{
    matches!(status, Status::Usage)
}

/// Makes the search that is asked for.
fn look<R: Threads + Sync, F: Files, S: Source, K: Sink, E: Sink>(
    rt: &R,
    alloc: Global,
    asked: &Search<'_>,
    files: &mut F,
    input: S,
    output: K,
    errors: E,
) -> Searched<S, K, E>
    requires asked { IsInRange (search_as_text asked.now) }
    ensures { AnswersSearch F.Files S.Source K.Sink E.Sink (search_as_text asked.now)
        files.old files.new (record { input = input; output = output; errors = errors }) result }
{
    let mut input = input;
    let mut errors = errors;
    let setup = match prepare_plain(alloc, &asked.plain, files) {
        Ok(setup) => setup,
        Err(why) => return refuse(why, input, output, errors),
    };
    let bytes = match read_whole(alloc, &mut input) {
        Ok(bytes) => bytes,
        Err(Unread::NoMemory) => return refuse(Refusal::NoMemory, input, output, errors),
        Err(_) => return refuse(Refusal::ReadFault, input, output, errors),
    };
    let begun = Begun {
        setup,
        input: bytes,
    };
    match find(rt, alloc, asked, &begun, &mut errors) {
        Err(_) => refuse(Refusal::NoMemory, input, output, errors),
        Ok(None) => Searched {
            end: SearchEnd::Sound,
            input,
            output,
            errors,
        },
        Ok(Some(schedule)) => show(alloc, asked, begun, schedule, files, input, output, errors),
    }
}

/// Runs the find along its schedule over the given files and sinks, with all of standard input, records it if a file is
/// named for it, and reports how it is replayed.
fn show<F: Files, S, K: Sink, E: Sink>(
    alloc: Global,
    asked: &Search<'_>,
    begun: Begun,
    schedule: Schedule,
    files: &mut F,
    input: S,
    output: K,
    errors: E,
) -> Searched<S, K, E>
    requires begins { BeginsPlain (plain_as_text asked.now.plain) (F.map files.old) begun.setup
        (Freely asked.now.plain.steps) }
    requires steps { asked.now.plain.steps ≤ most_steps }
    ensures shown { (end : _) × (result.end ≡ SearchEnd.Found end)
        × HasShown F.Files K.Sink E.Sink (search_as_text asked.now) begun.input.items files.old files.new output errors result end }
{
    let Begun {
        setup,
        input: bytes,
    } = begun;
    let before = errors.faults();
    let source = MemorySource::new(bytes, Vec::new(alloc));
    let course = Course::Along(schedule, asked.plain.steps);
    let finish = run_course(alloc, setup, &course, source, output, errors);
    let Ended {
        status,
        schedule: _,
        input: _,
        output,
        mut errors,
    } = close(alloc, asked.plain.kept, files, before, finish);
    report_replay(alloc, &mut errors, asked.plain.kept, asked.plain.script);
    Searched {
        end: SearchEnd::Found(status),
        input,
        output,
        errors,
    }
}

/// The schedule of a run that ends otherwise than the run in turn, made small, if one is found.
///
/// `NoMemory` if memory is refused in a run, or for one.
fn find<R: Threads + Sync, E: Sink>(
    rt: &R,
    alloc: Global,
    asked: &Search<'_>,
    begun: &Begun,
    errors: &mut E,
) -> Result<Option<Schedule>, NoMemory>
    requires asked { IsInRange (search_as_text asked.now) }
    ensures reported { IsReported (E.got errors.old) (E.got errors.new) }
{
    let Ok(in_turn) = turn(alloc, asked, begun) else {
        return Err(NoMemory);
    };
    report_turn(alloc, errors, &in_turn);
    let hunt = Hunt {
        begun,
        in_turn: &in_turn,
        seed: asked.seed,
        switches: asked.switches,
        steps: asked.plain.steps,
        difference: asked.difference,
    };
    match first_find(rt, alloc, &hunt, asked, errors) {
        Err(_) => Err(NoMemory),
        Ok(None) => Ok(None),
        Ok(Some(find)) => {
            report_find(alloc, errors, find.run, asked.seed, &find.trial);
            shrunk(alloc, &hunt, find, errors)
        }
    }
}

/// The run in turn.
///
/// `NoMemory` if memory for it is refused.
fn turn(alloc: Global, asked: &Search<'_>, begun: &Begun) -> Result<Trial, NoMemory>
    requires { asked.now.plain.steps ≤ most_steps }
{
    let trial = begun.trial(alloc, &Course::InTurn(asked.plain.steps))?;
    if is_out_of_memory(&trial) {
        return Err(NoMemory);
    }
    Ok(trial)
}

/// The schedule of a find that was made small.
fn shrunk<E: Sink>(
    alloc: Global,
    hunt: &Hunt<'_>,
    find: Find,
    errors: &mut E,
) -> Result<Option<Schedule>, NoMemory>
    requires { hunt.now.steps ≤ most_steps }
    ensures reported { IsReported (E.got errors.old) (E.got errors.new) }
{
    let steps = find.trial.schedule.len();
    let switches = switch_count(&find.trial.schedule);
    let mut shrunk = Shrunk::new(find.trial);
    if shrunk.shrink(alloc, hunt).is_err() {
        return Err(NoMemory);
    }
    report_shrunk(alloc, errors, steps, switches, &shrunk.trial);
    Ok(Some(shrunk.into_schedule()))
}

/// The first run that ended otherwise: the run in turn itself if no thread could go on in it, or the find with the least
/// number.
///
/// `NoMemory` if memory is refused in a run.
fn first_find<R: Threads + Sync, E: Sink>(
    rt: &R,
    alloc: Global,
    hunt: &Hunt<'_>,
    asked: &Search<'_>,
    errors: &mut E,
) -> Result<Option<Find>, NoMemory>
    requires asked { IsInRange (search_as_text asked.now) }
    requires steps { hunt.now.steps ≤ most_steps }
    ensures reported { IsReported (E.got errors.old) (E.got errors.new) }
{
    if is_find(hunt.in_turn, hunt.in_turn, hunt.difference) {
        let Ok(trial) = turn(alloc, asked, hunt.begun) else {
            return Err(NoMemory);
        };
        return Ok(Some(Find { run: 0, trial }));
    }
    let runs = u64::from(asked.runs);
    let mut cut = 0u64;
    let mut steps = 0u64;
    for tenth in 0..TENTHS {
        let start = runs * tenth / TENTHS;
        let end = runs * (tenth + 1) / TENTHS;
        let workers = asked.plain.workers;
        let Ok(done) = run_round(rt, alloc, hunt, workers, start + 1, end + 1) else {
            return Err(NoMemory);
        };
        let Round {
            cut: these,
            steps: more,
            find,
        } = done;
        steps = steps.saturating_add(more);
        if let Some(find) = find {
            let cut = cut.saturating_add(count_below(these.as_slice(), find.run));
            let same = find.run.saturating_sub(1).saturating_sub(cut);
            report_counts(alloc, errors, same, cut, steps);
            return Ok(Some(find));
        }
        cut = cut.saturating_add(these.len() as u64);
        report_progress(alloc, errors, end, runs);
    }
    report_counts(alloc, errors, runs.saturating_sub(cut), cut, steps);
    Ok(None)
}

/// After how many parts of the runs there is a line of progress.
const TENTHS: u64 = 10;

/// How many of these numbers are below one.
fn count_below(numbers: &[u64], most: u64) -> u64 {
    numbers.iter().filter(|number| **number < most).count() as u64
}
