ghost use Rattle.std.specs.Prelude.{◌≡◌, IfOk, IfErr, drop, map, string_bytes};
ghost use Rattle.std.specs.Process.{exit_status};
ghost use Rattle.std.specs.Vec.Iter.{into_iter_items};
ghost use Rattle.tt_session.specs.Answer.{IsAnswered, IsUntouched};
ghost use Rattle.tt_session.specs.Status.{exit_of};
ghost use Rattle.tt_session.specs.declared.status.Refusal.{Refusal};
ghost use Rattle.tt_session.specs.NoWords.{IsNoWords};

use std::env::Args;
use std::io;
use std::process::ExitCode;
use std::sync::Wait;
use std::thread::Threads;
use tt_devices::{Files, OpenGate, Sink, Source};
use tt_session::{Ended, program_words, refuse, session};

/// The whole program over these devices, and the code that it exits with: that of its status.
///
/// `all` are the words that the system gives, the program's name before them. If one of them is no UTF-8, that is
/// wrong usage; if memory for them was refused, it is want of memory.
pub(crate) fn program<
    R: Threads + Wait + Sync + AllocGlobal,
    F: Files,
    S: Source + Send,
    K: Sink + Send,
    E: Sink + Send,
>(
    rt: &R,
    all: io::Result<Args>,
    files: &mut F,
    input: S,
    output: K,
    errors: E,
) -> (ExitCode, Ended<S, K, E>)
    ensures code { exit_status result.0 ≡ exit_of result.1.status }
    ensures answer { IfOk all (λ all. IsAnswered F.Files S.Source K.Sink E.Sink
        (map string_bytes (drop 1 (into_iter_items all)))
        files.old files.new (record { input = input; output = output; errors = errors }) result.1) }
    ensures no_words { IfErr all (λ error. (why : Refusal) × IsNoWords error why
        × IsUntouched F.Files S.Source K.Sink E.Sink why
        files.old files.new (record { input = input; output = output; errors = errors }) result.1) }
{
    let ended = call(rt, all, files, input, output, errors);
    (ExitCode::from(ended.status.exit()), ended)
}

/// What a call leaves, with the words that the system gives.
fn call<
    R: Threads + Wait + Sync + AllocGlobal,
    F: Files,
    S: Source + Send,
    K: Sink + Send,
    E: Sink + Send,
>(rt: &R, all: io::Result<Args>, files: &mut F, input: S, output: K, errors: E) -> Ended<S, K, E>
    ensures answer { IfOk all (λ all. IsAnswered F.Files S.Source K.Sink E.Sink
        (map string_bytes (drop 1 (into_iter_items all)))
        files.old files.new (record { input = input; output = output; errors = errors }) result) }
    ensures no_words { IfErr all (λ error. (why : Refusal) × IsNoWords error why
        × IsUntouched F.Files S.Source K.Sink E.Sink why
        files.old files.new (record { input = input; output = output; errors = errors }) result) }
{
    let alloc = rt.alloc();
    match program_words(alloc, all) {
        Ok(words) => session(
            rt,
            alloc,
            words.as_slice(),
            files,
            input,
            output,
            errors,
            &OpenGate,
        ),
        Err(why) => refuse(alloc, why, input, output, errors),
    }
}
