ghost use Rattle.std.specs.Prelude.{◌≡◌, ◌≤◌, map, string_bytes};
ghost use Rattle.tt_schedule.specs.ScheduleText.{most_steps};
ghost use Rattle.tt_words.specs.Asked.{WordsAskFor};
ghost use Rattle.tt_words.specs.Asked as words_asked;
ghost use Rattle.tt_words.specs.CodeValues.{plain_as_text};
ghost use Rattle.tt_session.specs.Answer.{AnswersTo, IsAnswered, IsUsage};
ghost use Rattle.tt_session.specs.Choosing.{Freely};
ghost use Rattle.tt_session.specs.Running.{RunLeaves};
ghost use Rattle.tt_session.specs.inside.Following.{worker_end};

use crate::ended::{Alone, Ended, Finish};
use crate::prepare::{ask, prepare_plain};
use crate::recording::close;
use crate::status::End;
use crate::without_workers::{alone, refuse};
use std::alloc::Global;
use std::sync::Wait;
use std::thread::Threads;
use tt_core::Setup;
use tt_devices::{Files, Gate, Sink, Source};
use tt_words::{Asked, Plain};
use tt_workers::{Ran, RunEnd, run};

/// Runs a script as the words say, over these files and streams, and reports on standard error how that ended.
///
/// The words are those of `tt_words::read_words`. With `--replay` the steps are those of a schedule, and with
/// `--generate` the threads take their steps in turn; else workers carry the threads, whose steps come in any order. A
/// worker lets the gate pass each thread before that goes on. A call on workers may wait.
pub fn session<
    R: Threads + Wait + Sync,
    F: Files,
    S: Source + Send,
    K: Sink + Send,
    E: Sink + Send,
    G: Gate + Sync,
>(
    rt: &R,
    alloc: Global,
    words: &[String],
    files: &mut F,
    input: S,
    output: K,
    errors: E,
    gate: &G,
) -> Ended<S, K, E>
    // What is answered, and what is left of the run.
    ensures answer { IsAnswered F.Files S.Source K.Sink E.Sink (map string_bytes words.now)
        files.old files.new (record { input = input; output = output; errors = errors }) result }
    ensures usage { IsUsage result.status (map string_bytes words.now) }
{
    match alone(alloc, words, files, input, output, errors) {
        Alone::Ended(ended) => ended,
        Alone::Plain(input, output, errors) => {
            plain(rt, alloc, words, files, input, output, errors, gate)
        }
    }
}

/// Does what the words ask for, which is a plain run.
fn plain<
    R: Threads + Wait + Sync,
    F: Files,
    S: Source + Send,
    K: Sink + Send,
    E: Sink + Send,
    G: Gate + Sync,
>(
    rt: &R,
    alloc: Global,
    words: &[String],
    files: &mut F,
    input: S,
    output: K,
    errors: E,
    gate: &G,
) -> Ended<S, K, E>
    requires { (named : words_asked.Plain) × WordsAskFor (map string_bytes words.now) (words_asked.plain named) }
    ensures { IsAnswered F.Files S.Source K.Sink E.Sink (map string_bytes words.now)
        files.old files.new (record { input = input; output = output; errors = errors }) result }
{
    match ask(alloc, words) {
        Err(why) => refuse(alloc, why, input, output, errors),
        Ok(Asked::Plain(asked)) => start(rt, alloc, &asked, files, input, output, errors, gate),
        Ok(Asked::Replay(_)) => unreachable!(),
        Ok(Asked::Generate(_)) => unreachable!(),
    }
}

/// Runs a script on workers, whose threads take their steps in any order.
fn start<
    R: Threads + Wait + Sync,
    F: Files,
    S: Source + Send,
    K: Sink + Send,
    E: Sink + Send,
    G: Gate + Sync,
>(
    rt: &R,
    alloc: Global,
    asked: &Plain<'_>,
    files: &mut F,
    input: S,
    output: K,
    errors: E,
    gate: &G,
) -> Ended<S, K, E>
    requires workers { (1 ≤ asked.now.workers) × (asked.now.workers ≤ 64) }
    requires steps { (1 ≤ asked.now.steps) × (asked.now.steps ≤ most_steps) }
    ensures { AnswersTo F.Files S.Source K.Sink E.Sink (words_asked.plain (plain_as_text asked.now))
        files.old files.new (record { input = input; output = output; errors = errors }) result }
{
    let before = errors.faults();
    match prepare_plain(alloc, asked, files) {
        Err(why) => refuse(alloc, why, input, output, errors),
        Ok(setup) => {
            let finish = run_freely(
                rt,
                alloc,
                setup,
                asked.workers,
                asked.steps,
                input,
                output,
                errors,
                gate,
            );
            close(alloc, asked.kept, files, before, finish)
        }
    }
}

/// Runs a script on workers, 1 to 64 of them, whose threads take their steps in any order: 1 to 16,777,216 at most.
fn run_freely<
    R: Threads + Wait + Sync,
    S: Source + Send,
    K: Sink + Send,
    E: Sink + Send,
    G: Gate + Sync,
>(
    rt: &R,
    alloc: Global,
    setup: Setup,
    workers: u32,
    steps: u32,
    input: S,
    output: K,
    errors: E,
    gate: &G,
) -> Finish<S, K, E>
    requires workers { (1 ≤ workers) × (workers ≤ 64) }
    requires steps { (1 ≤ steps) × (steps ≤ most_steps) }
    ensures { RunLeaves S.Source K.Sink E.Sink setup (Freely steps)
        (record { input = input; output = output; errors = errors }) result }
{
    let Ran {
        end,
        schedule,
        input,
        output,
        errors,
    } = run(
        rt, alloc, setup, input, output, errors, workers, steps, gate,
    );
    Finish {
        end: end_of(end, steps),
        schedule,
        input,
        output,
        errors,
    }
}

/// How a run on workers ended, in at most so many steps.
fn end_of(end: RunEnd, steps: u32) -> End
    ensures { result ≡ worker_end end steps }
{
    match end {
        RunEnd::Over(code) => End::Done(code),
        RunEnd::Stuck => End::Stalled,
        RunEnd::Limit => End::StepLimit(u64::from(steps)),
        RunEnd::Read => End::ReadFault,
        RunEnd::Write => End::WriteFault,
        RunEnd::Memory => End::NoMemory,
    }
}
