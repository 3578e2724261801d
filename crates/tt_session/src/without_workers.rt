ghost use Rattle.std.specs.Prelude.{◌≡◌, ◌≢◌, ◌≤◌, [], map, string_bytes};
ghost use Rattle.tt_schedule.specs.ScheduleText.{most_steps};
ghost use Rattle.tt_words.specs.Asked.{WordsAskFor};
ghost use Rattle.tt_words.specs.Asked as words_asked;
ghost use Rattle.tt_words.specs.CodeValues.{generate_as_text, replay_as_text, report_as_text};
ghost use Rattle.tt_session.specs.Answer.{AnswersTo, IsAnswered, IsUsage};
ghost use Rattle.tt_session.specs.Asking.{IsNoSession};
ghost use Rattle.tt_session.specs.Ended.{IfEnded, IfPlain};
ghost use Rattle.tt_session.specs.Lines.{PutsLine};
ghost use Rattle.tt_session.specs.Status.{refused_status};
ghost use Rattle.tt_session.specs.declared.status.Status.{Status};

use crate::debugging::debug;
use crate::ended::{Alone, Ended};
use crate::line::put_status;
use crate::prepare::{ask, prepare_generated, prepare_replay};
use crate::recording::{close, close_reported};
use crate::reporting::run_reported;
use crate::run::{Course, run_course};
use crate::status::Refusal;
use std::alloc::Global;
use tt_devices::{Files, Sink, Source};
use tt_schedule::Schedule;
use tt_words::{Asked, Generate, Replay, Report};

/// Does the whole work of `session` if the words ask for nothing, or have `--replay` or `--generate`. It takes no
/// runtime, and returns from every call.
///
/// `Plain` exactly if the words ask for neither, and memory to read them was not refused; then nothing was done.
pub fn alone<F: Files, S: Source, K: Sink, E: Sink>(
    alloc: Global,
    words: &[String],
    files: &mut F,
    input: S,
    output: K,
    errors: E,
) -> Alone<S, K, E>
    // What is answered, and what is left of the run.
    ensures answer { IfEnded result (IsAnswered F.Files S.Source K.Sink E.Sink (map string_bytes words.now)
        files.old files.new (record { input = input; output = output; errors = errors })) }
    ensures usage { IfEnded result (λ ended. IsUsage ended.status (map string_bytes words.now)) }

    // Whether the words ask for a plain run.
    ensures plain { IfPlain result (λ _ _ _.
        (named : words_asked.Plain) × WordsAskFor (map string_bytes words.now) (words_asked.plain named)) }
    ensures not_plain { IfEnded result (λ ended. (ended.status ≢ Status.NoMemory) →
        (named : words_asked.Plain) → ¬ WordsAskFor (map string_bytes words.now) (words_asked.plain named)) }
    ensures handed_back { IfPlain result (λ in_again out_again err_again.
        (in_again ≡ input) × (out_again ≡ output) × (err_again ≡ errors)) }
    ensures nothing_done { IfPlain result (λ _ _ _. files.new ≡ files.old) }
{
    match ask(alloc, words) {
        Err(why) => Alone::Ended(refuse(alloc, why, input, output, errors)),
        Ok(Asked::Plain(_)) => Alone::Plain(input, output, errors),
        Ok(Asked::Replay(asked)) => {
            let ended = replay(alloc, &asked, files, input, output, errors);
            Alone::Ended(ended)
        }
        Ok(Asked::Generate(asked)) => {
            let ended = generate(alloc, &asked, files, input, output, errors);
            Alone::Ended(ended)
        }
    }
}

/// What a call leaves that started no machine: no step, the status of this reason, and its line on standard error.
pub fn refuse<S, K, E: Sink>(
    alloc: Global,
    why: Refusal,
    input: S,
    output: K,
    errors: E,
) -> Ended<S, K, E>
    ensures status { result.status ≡ refused_status why }
    ensures no_step { result.schedule.threads ≡ [] }
    ensures streams { (result.input ≡ input) × (result.output ≡ output) }
    ensures line { PutsLine E.Sink (E.fault_count errors) result.status [] errors result.errors }
{
    let mut errors = errors;
    let before = errors.faults();
    let status = why.status();
    put_status(&status, before, &mut errors);
    Ended {
        status,
        schedule: Schedule::new(alloc),
        input,
        output,
        errors,
    }
}

/// Runs a script after a schedule, or holds a debugging session over that run.
fn replay<F: Files, S: Source, K: Sink, E: Sink>(
    alloc: Global,
    asked: &Replay<'_>,
    files: &mut F,
    input: S,
    output: K,
    errors: E,
) -> Ended<S, K, E>
    ensures { AnswersTo F.Files S.Source K.Sink E.Sink (words_asked.replay (replay_as_text asked.now))
        files.old files.new (record { input = input; output = output; errors = errors }) result }
{
    match &asked.report {
        Report::Debug(file) => debug(alloc, asked, file, files, input, output, errors),
        Report::None | Report::Waits | Report::Races => {
            run_replay(alloc, asked, files, input, output, errors)
        }
    }
}

/// Runs a script after a schedule.
fn run_replay<F: Files, S: Source, K: Sink, E: Sink>(
    alloc: Global,
    asked: &Replay<'_>,
    files: &mut F,
    input: S,
    output: K,
    errors: E,
) -> Ended<S, K, E>
    requires run { IsNoSession (report_as_text asked.now.report) }
    ensures { AnswersTo F.Files S.Source K.Sink E.Sink (words_asked.replay (replay_as_text asked.now))
        files.old files.new (record { input = input; output = output; errors = errors }) result }
{
    let before = errors.faults();
    match prepare_replay(alloc, asked, files) {
        Err(why) => refuse(alloc, why, input, output, errors),
        Ok(prepared) => {
            let reported = run_reported(
                alloc,
                prepared.setup,
                prepared.given,
                &asked.report,
                input,
                output,
                errors,
            );
            close_reported(before, reported)
        }
    }
}

/// Runs a script that is made of a number, whose threads take their steps in turn.
fn generate<F: Files, S: Source, K: Sink, E: Sink>(
    alloc: Global,
    asked: &Generate<'_>,
    files: &mut F,
    input: S,
    output: K,
    errors: E,
) -> Ended<S, K, E>
    requires { asked.now.steps ≤ most_steps }
    ensures { AnswersTo F.Files S.Source K.Sink E.Sink (words_asked.generate (generate_as_text asked.now))
        files.old files.new (record { input = input; output = output; errors = errors }) result }
{
    let before = errors.faults();
    match prepare_generated(alloc, asked) {
        Err(_) => refuse(alloc, Refusal::NoMemory, input, output, errors),
        Ok(setup) => {
            let course = Course::InTurn(asked.steps);
            let finish = run_course(alloc, setup, &course, input, output, errors);
            close(alloc, asked.kept, files, before, finish)
        }
    }
}
