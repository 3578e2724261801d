ghost use Rattle.std.specs.Prelude.{◌≡◌, IfOk, IfErr, drop, map, string_bytes};
ghost use Rattle.std.specs.Process.{exit_status};
ghost use Rattle.std.specs.Vec.Iter.{into_iter_items};
ghost use Rattle.tt_search.specs.Searched.{IsIdle, IsSearched, PutsRefusal, exit_of_search};
ghost use Rattle.tt_search.specs.declared.searched.SearchEnd.TheVariants.{Refused};
ghost use Rattle.tt_session.specs.NoWords.{IsNoWords};
ghost use Rattle.tt_session.specs.Status.{refused_status};
ghost use Rattle.tt_session.specs.declared.status.Refusal.{Refusal};

use std::env::Args;
use std::io;
use std::process::ExitCode;
use std::thread::Threads;
use tt_devices::{Files, Sink, Source};
use tt_search::{Searched, refuse, search};
use tt_session::program_words;

/// The whole program over these devices, and the code that it exits with: that of how the search ended.
///
/// `all` are the words that the system gives, the program's name before them. If one of them is no UTF-8, that is
/// wrong usage; if memory for them was refused, it is want of memory.
pub(crate) fn program<R: Threads + Sync + AllocGlobal, F: Files, S: Source, K: Sink, E: Sink>(
    rt: &R,
    all: io::Result<Args>,
    files: &mut F,
    input: S,
    output: K,
    errors: E,
) -> (ExitCode, Searched<S, K, E>)
    ensures code { exit_status result.0 ≡ exit_of_search result.1.end }
    ensures answer { IfOk all (λ all. IsSearched F.Files S.Source K.Sink E.Sink
        (map string_bytes (drop 1 (into_iter_items all)))
        files.old files.new (record { input = input; output = output; errors = errors }) result.1) }
    ensures no_words { IfErr all (λ error. (why : Refusal) × IsNoWords error why
        × (result.1.end ≡ Refused (refused_status why))
        × IsIdle F.Files S.Source K.Sink E.Sink files.old files.new
        (record { input = input; output = output; errors = errors }) result.1
        × PutsRefusal E.Sink (refused_status why) errors result.1.errors) }
{
    let left = call(rt, all, files, input, output, errors);
    (ExitCode::from(left.end.exit()), left)
}

/// What a call leaves, with the words that the system gives.
fn call<R: Threads + Sync + AllocGlobal, F: Files, S: Source, K: Sink, E: Sink>(
    rt: &R,
    all: io::Result<Args>,
    files: &mut F,
    input: S,
    output: K,
    errors: E,
) -> Searched<S, K, E>
    ensures answer { IfOk all (λ all. IsSearched F.Files S.Source K.Sink E.Sink
        (map string_bytes (drop 1 (into_iter_items all)))
        files.old files.new (record { input = input; output = output; errors = errors }) result) }
    ensures no_words { IfErr all (λ error. (why : Refusal) × IsNoWords error why
        × (result.end ≡ Refused (refused_status why))
        × IsIdle F.Files S.Source K.Sink E.Sink files.old files.new
        (record { input = input; output = output; errors = errors }) result
        × PutsRefusal E.Sink (refused_status why) errors result.errors) }
{
    let alloc = rt.alloc();
    match program_words(alloc, all) {
        Ok(words) => search(rt, alloc, words.as_slice(), files, input, output, errors),
        Err(why) => refuse(why, input, output, errors),
    }
}
