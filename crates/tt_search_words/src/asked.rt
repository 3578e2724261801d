ghost use Rattle.std.specs.Prelude.{IfSome, IfNone, map};
ghost use Rattle.std.specs.Option.{option_map};
ghost use Rattle.tt_words.specs.Asked as words_spec;
ghost use Rattle.tt_words.specs.CodeValues.{plain_as_text, text_of};
ghost use Rattle.tt_search_words.specs.Asked as spec;
ghost use Rattle.tt_search_words.specs.CodeValues.{search_as_text, values_as_text};

use crate::values::Values;
use tt_words::{
    DEFAULT_WORKERS, MOST_STEPS, MOST_UNITS, MOST_WORKERS, Plain, file, number, script,
};

const MOST_RUNS: u64 = 1_000_000;

const DEFAULT_RUNS: u64 = 1000;

const MOST_SWITCHES: u64 = 1000;

const DEFAULT_SWITCHES: u64 = 3;

const DEFAULT_STEPS: u64 = 100_000;

/// What counts as a different end of a run.
#[derive(Clone, Copy, Debug, PartialEq, Eq)]
pub enum Difference {
    /// Its end alone.
    InEnd,
    /// Its end, or what it wrote.
    InEndOrOutput,
}

/// A search that is asked for.
#[derive(Debug, Drop)]
pub struct Search<'a> {
    /// The script with its arguments, the workers (from 1 to 64, 4 if not given), the most steps of one run (from 1 to
    /// 16,777,216, 100,000 if not given), the most units of one thread (from 1 to 2^62, 2^62 if not given), and the
    /// file that keeps a find, if one does.
    pub plain: Plain<'a>,
    /// The most runs, from 1 to 1,000,000 (1,000 if not given).
    pub runs: u32,
    /// The number that schedules are made of, from 0 to 2^64 - 1 (0 if not given).
    pub seed: u64,
    /// At how many places a run lowers a priority, from 0 to 1,000 (3 if not given).
    pub switches: u32,
    /// What counts as a different end of a run.
    pub difference: Difference,
}

/// The search that the options and the ordinary words ask for; `None` exactly if they ask for none.
pub(crate) fn read_search<'a>(values: &Values<'a>, ordinary: Vec<&'a str>) -> Option<Search<'a>>
    ensures found { IfSome result (λ search.
        spec.IsSearch (values_as_text values.now) (map text_of ordinary.entry.items) (search_as_text search)) }
    ensures none { IfNone result ((search : spec.Search) →
        ¬ spec.IsSearch (values_as_text values.now) (map text_of ordinary.entry.items) search) }
{
    let runs = number(values.runs, 1, MOST_RUNS, DEFAULT_RUNS)?;
    let seed = number(values.seed, 0, u64::MAX, 0)?;
    let switches = number(values.switches, 0, MOST_SWITCHES, DEFAULT_SWITCHES)?;
    let plain = read_plain(values, ordinary)?;
    Some(Search {
        plain,
        runs: runs as u32,
        seed,
        switches: switches as u32,
        difference: read_difference(values.differ),
    })
}

/// The script of the search and how a run of it goes, if that is asked for.
fn read_plain<'a>(values: &Values<'a>, ordinary: Vec<&'a str>) -> Option<Plain<'a>>
    ensures found { IfSome result (λ plain.
        spec.IsPlain (values_as_text values.now) (map text_of ordinary.entry.items) (plain_as_text plain)) }
    ensures none { IfNone result ((plain : words_spec.Plain) →
        ¬ spec.IsPlain (values_as_text values.now) (map text_of ordinary.entry.items) plain) }
{
    let workers = number(values.workers, 1, MOST_WORKERS, DEFAULT_WORKERS)?;
    let steps = number(values.steps, 1, MOST_STEPS, DEFAULT_STEPS)?;
    let limit = number(values.limit, 1, MOST_UNITS, MOST_UNITS)?;
    let kept = file(values.kept)?;
    let (script, arguments) = script(ordinary)?;
    Some(Plain {
        script,
        arguments,
        workers: workers as u32,
        steps: steps as u32,
        limit,
        kept,
    })
}

/// What counts as different: output too if the option is given.
fn read_difference(differ: Option<&str>) -> Difference
    ensures { spec.HasDifference (option_map text_of differ.entry) result }
{
    match differ {
        Some(_) => Difference::InEndOrOutput,
        None => Difference::InEnd,
    }
}
