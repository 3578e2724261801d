ghost use Rattle.std.specs.Prelude.{◌≡◌};
ghost use Rattle.tt_search.specs.Searched.{IsReported};

use crate::begun::Trial;
use crate::rows::switch_count;
use std::alloc::{AllocError, Global};
use tt_devices::Sink;
use tt_search_words::USAGE;
use tt_session::End;

/// Puts a piece. What standard error doesn't take is lost.
fn put_piece<E: Sink>(errors: &mut E, piece: &[u8])
    ensures { IsReported (E.got errors.old) (E.got errors.new) }
{
    match errors.put(piece) {
        Ok(()) => {}
        Err(_) => {}
    }
}

/// Puts a line: the program's name, these words, and a newline.
fn put_line<E: Sink>(errors: &mut E, words: &[u8])
    ensures { IsReported (E.got errors.old) (E.got errors.new) }
{
    put_piece(errors, b"tclsearch: ");
    put_piece(errors, words);
    put_piece(errors, b"\n");
}

/// Puts a line of words that were made, if there was memory for them.
fn put_made<E: Sink>(errors: &mut E, words: Result<String, AllocError>)
    ensures { IsReported (E.got errors.old) (E.got errors.new) }
{
    match words {
        Ok(words) => put_line(errors, words.as_bytes()),
        Err(_) => {}
    }
}

/// How the program is called.
pub(crate) fn report_usage<E: Sink>(errors: &mut E)
    ensures { IsReported (E.got errors.old) (E.got errors.new) }
{
    put_piece(errors, b"tclsearch: usage: ");
    put_piece(errors, USAGE);
    put_piece(errors, b"\n");
}

/// How the run in turn ended.
pub(crate) fn report_turn<E: Sink>(alloc: Global, errors: &mut E, in_turn: &Trial)
    ensures { IsReported (E.got errors.old) (E.got errors.new) }
{
    put_made(errors, turn_words(alloc, in_turn));
}

fn turn_words(alloc: Global, in_turn: &Trial) -> Result<String, AllocError> {
    let end = end_words(alloc, in_turn.end)?;
    let steps = in_turn.schedule.len();
    format!(in alloc; "the run in turn takes {steps} steps: {end}")
}

/// How many runs were made, of how many.
pub(crate) fn report_progress<E: Sink>(alloc: Global, errors: &mut E, made: u64, runs: u64)
    ensures { IsReported (E.got errors.old) (E.got errors.new) }
{
    put_made(errors, format!(in alloc; "{made} of {runs} runs"));
}

/// How many runs ended as the run in turn, how many came to their most steps, and how many steps all runs took that
/// were made.
pub(crate) fn report_counts<E: Sink>(alloc: Global, errors: &mut E, same: u64, cut: u64, steps: u64)
    ensures { IsReported (E.got errors.old) (E.got errors.new) }
{
    put_made(
        errors,
        format!(in alloc;
            "{same} runs ended as the run in turn, {cut} came to the most steps, in {steps} steps"
        ),
    );
}

/// The run that ended otherwise.
pub(crate) fn report_find<E: Sink>(
    alloc: Global,
    errors: &mut E,
    run: u64,
    seed: u64,
    trial: &Trial,
)
    ensures { IsReported (E.got errors.old) (E.got errors.new) }
{
    put_made(errors, find_words(alloc, run, seed, trial));
}

fn find_words(alloc: Global, run: u64, seed: u64, trial: &Trial) -> Result<String, AllocError> {
    let end = end_words(alloc, trial.end)?;
    format!(in alloc; "run {run} of seed {seed} ended otherwise: {end}")
}

/// How large the find was, and how small it was made.
pub(crate) fn report_shrunk<E: Sink>(
    alloc: Global,
    errors: &mut E,
    steps: u64,
    switches: u64,
    trial: &Trial,
)
    ensures { IsReported (E.got errors.old) (E.got errors.new) }
{
    let fewer = trial.schedule.len();
    let less = switch_count(&trial.schedule);
    put_made(
        errors,
        format!(in alloc;
            "its {steps} steps with {switches} switches were made {fewer} with {less}"
        ),
    );
}

/// How the find is replayed, if it was kept.
pub(crate) fn report_replay<E: Sink>(
    alloc: Global,
    errors: &mut E,
    file: Option<&str>,
    script: &str,
)
    ensures { IsReported (E.got errors.old) (E.got errors.new) }
{
    match file {
        Some(file) => put_made(
            errors,
            format!(in alloc; "replay it by: tclthread --replay {file} {script}"),
        ),
        None => put_line(errors, b"--record FILE keeps its schedule"),
    }
}

/// The words of an end.
fn end_words(alloc: Global, end: End) -> Result<String, AllocError> {
    match end {
        End::Done(code) => format!(in alloc; "exit code {code}"),
        End::StepLimit(steps) => format!(in alloc; "step limit {steps}"),
        End::Stalled => String::from_str(alloc, "stalled"),
        _ => String::from_str(alloc, "cut off"),
    }
}
