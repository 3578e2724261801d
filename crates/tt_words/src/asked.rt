ghost use Rattle.std.specs.Prelude.{◌≡◌, ◌≤◌, ◌||◌, ℕ, List, map, IfSome, IfNone, Some, is_some};
ghost use Rattle.std.specs.Option.{option_map};
ghost use Rattle.tt_words.specs.Asked as spec;
ghost use Rattle.tt_words.specs.CodeValues.{asked_as_text, generate_as_text, plain_as_text, replay_as_text};
ghost use Rattle.tt_words.specs.CodeValues.{report_as_text, text_of, values_as_text};

use crate::numbers::{number, number_within};
use crate::values::Values;

/// The most workers of a run. The least is 1.
pub const MOST_WORKERS: u64 = 64;

/// How many workers a run has if none are asked for, from 1 to `MOST_WORKERS`.
pub const DEFAULT_WORKERS: u64 = 4;

/// The most steps of a run: 2^24. The least is 1.
pub const MOST_STEPS: u64 = 16_777_216;

/// The most units of one thread: 2^62. The least is 1.
pub const MOST_UNITS: u64 = 4_611_686_018_427_387_904;

const MOST_JOBS: u64 = 2000;

/// A script with its arguments, on workers that choose the schedule.
#[derive(Debug, Drop)]
pub struct Plain<'a> {
    /// The name of the script's file, which is not empty.
    pub script: &'a str,
    pub arguments: Vec<&'a str>,
    /// How many workers carry the threads, from 1 to 64.
    pub workers: u32,
    /// The most steps of the run, from 1 to 16,777,216.
    pub steps: u32,
    /// The most units of one thread, from 1 to 2^62.
    pub limit: u64,
    /// The name of the file that keeps the schedule, if one does. It is not empty.
    pub kept: Option<&'a str>,
}

/// What a replay reports of itself.
#[derive(Clone, Copy, Debug)]
pub enum Report<'a> {
    /// Nothing more.
    None,
    /// Who waits for whom, if the schedule ends before the run.
    Waits,
    /// Which steps on shared arrays nothing orders.
    Races,
    /// What the commands ask in the file of this name, which is not empty.
    Debug(&'a str),
}

/// A script with its arguments, after the schedule in a file.
#[derive(Debug, Drop)]
pub struct Replay<'a> {
    /// The name of the schedule's file, which is not empty.
    pub schedule: &'a str,
    /// The name of the script's file, which is not empty.
    pub script: &'a str,
    pub arguments: Vec<&'a str>,
    /// The most units of one thread, from 1 to 2^62.
    pub limit: u64,
    /// What it reports of itself.
    pub report: Report<'a>,
}

/// A script that is made of a number.
#[derive(Clone, Copy, Debug)]
pub struct Generate<'a> {
    /// The word in the script's place, which writes how many jobs the script has.
    pub script: &'a str,
    pub number: u64,
    /// How many jobs the script has, from 0 to 2000.
    pub size: u32,
    /// The most steps of the run, from 1 to 16,777,216.
    pub steps: u32,
    /// The most units of one thread, from 1 to 2^62.
    pub limit: u64,
    /// The name of the file that keeps the schedule, if one does. It is not empty.
    pub kept: Option<&'a str>,
}

/// What a command line asks for.
#[derive(Debug, Drop)]
pub enum Asked<'a> {
    Plain(Plain<'a>),
    Replay(Replay<'a>),
    Generate(Generate<'a>),
}

/// What the options and the ordinary words ask for; `None` exactly if they ask for nothing.
pub(crate) fn asked_by<'a>(values: &Values<'a>, ordinary: Vec<&'a str>) -> Option<Asked<'a>>
    ensures found { IfSome result (λ asked.
        spec.PartsAskFor (values_as_text values.now) (map text_of ordinary.entry.items) (asked_as_text asked)) }
    ensures none { IfNone result ((asked : spec.Asked) →
        ¬ spec.PartsAskFor (values_as_text values.now) (map text_of ordinary.entry.items) asked) }
{
    match (values.replay, values.generate) {
        (None, None) => match read_plain(values, ordinary) {
            Some(plain) => Some(Asked::Plain(plain)),
            None => None,
        },
        (Some(_), None) => match read_replay(values, ordinary) {
            Some(replay) => Some(Asked::Replay(replay)),
            None => None,
        },
        (None, Some(_)) => match read_generate(values, &ordinary) {
            Some(generate) => Some(Asked::Generate(generate)),
            None => None,
        },
        (Some(_), Some(_)) => None,
    }
}

/// A run on workers, if that is asked for.
fn read_plain<'a>(values: &Values<'a>, ordinary: Vec<&'a str>) -> Option<Plain<'a>>
    ensures found { IfSome result (λ plain.
        spec.IsPlain (values_as_text values.now) (map text_of ordinary.entry.items) (plain_as_text plain)) }
    ensures none { IfNone result ((plain : spec.Plain) →
        ¬ spec.IsPlain (values_as_text values.now) (map text_of ordinary.entry.items) plain) }
{
    if values.replay.is_some() || values.generate.is_some() || asks_report(values) {
        return None;
    }
    let workers = number(values.workers, 1, MOST_WORKERS, DEFAULT_WORKERS)?;
    let steps = number(values.steps, 1, MOST_STEPS, MOST_STEPS)?;
    let limit = number(values.limit, 1, MOST_UNITS, MOST_UNITS)?;
    let kept = file(values.kept)?;
    let (script, arguments) = script(ordinary)?;
    Some(Plain {
        script,
        arguments,
        workers: workers as u32,
        steps: steps as u32,
        limit,
        kept,
    })
}

/// A replay, if that is asked for.
fn read_replay<'a>(values: &Values<'a>, ordinary: Vec<&'a str>) -> Option<Replay<'a>>
    ensures found { IfSome result (λ replay.
        spec.IsReplay (values_as_text values.now) (map text_of ordinary.entry.items) (replay_as_text replay)) }
    ensures none { IfNone result ((replay : spec.Replay) →
        ¬ spec.IsReplay (values_as_text values.now) (map text_of ordinary.entry.items) replay) }
{
    if values.workers.is_some() || values.steps.is_some() {
        return None;
    }
    if values.kept.is_some() || values.generate.is_some() {
        return None;
    }
    let limit = number(values.limit, 1, MOST_UNITS, MOST_UNITS)?;
    let schedule = file(values.replay)??;
    let report = read_report(values)?;
    let (script, arguments) = script(ordinary)?;
    Some(Replay {
        schedule,
        script,
        arguments,
        limit,
        report,
    })
}

/// A run of a script that is made of a number, if that is asked for.
fn read_generate<'a>(values: &Values<'a>, ordinary: &[&'a str]) -> Option<Generate<'a>>
    ensures found { IfSome result (λ generate.
        spec.IsGenerate (values_as_text values.now) (map text_of ordinary.now) (generate_as_text generate)) }
    ensures none { IfNone result ((generate : spec.Generate) →
        ¬ spec.IsGenerate (values_as_text values.now) (map text_of ordinary.now) generate) }
{
    if values.workers.is_some() || values.replay.is_some() || asks_report(values) {
        return None;
    }
    let [word] = ordinary else {
        return None;
    };
    let size = number_within(word, 0, MOST_JOBS)?;
    let number_given = number_within(values.generate?, 0, u64::MAX)?;
    let steps = number(values.steps, 1, MOST_STEPS, MOST_STEPS)?;
    let limit = number(values.limit, 1, MOST_UNITS, MOST_UNITS)?;
    let kept = file(values.kept)?;
    Some(Generate {
        script: word,
        number: number_given,
        size: size as u32,
        steps: steps as u32,
        limit,
        kept,
    })
}

/// What a replay reports of itself; `None` exactly if more than one report is asked for, or the debugger's file has an
/// empty name.
fn read_report<'a>(values: &Values<'a>) -> Option<Report<'a>>
    ensures found { IfSome result (λ report.
        spec.HasReport values.now.waits values.now.races (option_map text_of values.now.debug)
        (report_as_text report)) }
    ensures none { IfNone result ((report : spec.Report) →
        ¬ spec.HasReport values.now.waits values.now.races (option_map text_of values.now.debug) report) }
{
    match (values.waits, values.races, values.debug) {
        (false, false, None) => Some(Report::None),
        (true, false, None) => Some(Report::Waits),
        (false, true, None) => Some(Report::Races),
        (false, false, Some(file)) if !file.is_empty() => Some(Report::Debug(file)),
        _ => None,
    }
}

/// Whether a report is asked for, which only a replay makes.
fn asks_report(values: &Values<'_>) -> bool
    ensures { result ≡ (values.now.waits || (values.now.races || is_some values.now.debug)) }
{
    values.waits || values.races || values.debug.is_some()
}

/// The file that the option names, or none if it isn't given; `None` exactly if its name is empty.
pub fn file(value: Option<&str>) -> Option<Option<&str>>
    ensures found { IfSome result (λ file. spec.HasFile (option_map text_of value.entry) (option_map text_of file)) }
    ensures none { IfNone result ((file : _) → ¬ spec.HasFile (option_map text_of value.entry) file) }
{
    match value {
        Some(name) if name.is_empty() => None,
        _ => Some(value),
    }
}

/// The script and its arguments; `None` exactly if there is no word, or the first is empty.
pub fn script<'a>(ordinary: Vec<&'a str>) -> Option<(&'a str, Vec<&'a str>)>
    ensures found { IfSome result (λ found.
        spec.HasScript (map text_of ordinary.entry.items) found.0.now (map text_of found.1.items)) }
    ensures none { IfNone result ((script : List ℕ) (arguments : List (List ℕ)) →
        ¬ spec.HasScript (map text_of ordinary.entry.items) script arguments) }
{
    let mut arguments = ordinary;
    if arguments.is_empty() {
        return None;
    }
    let script = arguments.remove(0);
    if script.is_empty() {
        return None;
    }
    Some((script, arguments))
}
