ghost use Rattle.std.specs.Prelude.{◌≡◌, IfOk, false};
ghost use Rattle.clap.specs.Words.{app_of, rule_of};
ghost use Rattle.tt_words.specs.inside.Program.{flag_rule, option_rule, program, words_rule};

use crate::setting::Setting;
use clap::{Arg, ArgAction, Command, Error};
use std::alloc::Global;

/// Under what name the ordinary words are found.
pub(crate) const WORDS: &str = "words";

/// The program's options, its flags and its ordinary words. There is no `--help` among them.
pub(crate) fn command<'a>(alloc: Global) -> Result<Command<'a>, Error>
    ensures { IfOk result (λ command. app_of command ≡ program) }
{
    let workers = option(alloc, Setting::Workers.name());
    let steps = option(alloc, Setting::Steps.name());
    let limit = option(alloc, Setting::Limit.name());
    let record = option(alloc, Setting::Record.name());
    let replay = option(alloc, Setting::Replay.name());
    let generate = option(alloc, Setting::Generate.name());
    let waits = flag(alloc, Setting::Waits.name());
    let races = flag(alloc, Setting::Races.name());
    let debug = option(alloc, Setting::Debug.name());
    let words = words(alloc);
    let command = Command::new(alloc, "tclthread")
        .no_binary_name(true)
        .disable_help_flag(true)
        .disable_version_flag(true)
        .arg(workers)?
        .arg(steps)?
        .arg(limit)?
        .arg(record)?
        .arg(replay)?
        .arg(generate)?
        .arg(waits)?
        .arg(races)?
        .arg(debug)?
        .arg(words)?;
    Ok(command)
}

/// An option with a value. How often it may come is tested after the parse.
fn option<'a>(alloc: Global, name: &'a str) -> Arg<'a>
    ensures rule { rule_of result ≡ option_rule name.entry.now }
    ensures local { result.global ≡ false }
{
    Arg::new(alloc, name).long(name).action(ArgAction::Append)
}

/// A flag: each use is one with an empty value, so that they are counted as those of options are.
fn flag<'a>(alloc: Global, name: &'a str) -> Arg<'a>
    ensures rule { rule_of result ≡ flag_rule name.entry.now }
    ensures local { result.global ≡ false }
{
    option(alloc, name).num_args(0).default_missing_value("")
}

/// The ordinary words.
fn words<'a>(alloc: Global) -> Arg<'a>
    ensures rule { rule_of result ≡ words_rule }
    ensures local { result.global ≡ false }
{
    Arg::new(alloc, WORDS).action(ArgAction::Append)
}
