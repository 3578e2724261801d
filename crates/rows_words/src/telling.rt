//! What words ask for, in a line.

use std::alloc::{AllocError, Global};
use tt_search_words::{Difference, Search};
use tt_words::{Asked, Report};

/// The words in parentheses, parted by spaces.
fn words_text(alloc: Global, words: &[&str]) -> Result<String, AllocError> {
    let mut text = String::from_str(alloc, "(")?;
    for (i, word) in words.iter().enumerate() {
        if i > 0 {
            text.push_str(" ")?;
        }
        text.push_str(if word.is_empty() { "''" } else { word })?;
    }
    text.push_str(")")?;
    Ok(text)
}

/// What a replay reports of itself.
fn report_text(alloc: Global, report: Report<'_>) -> Result<String, AllocError> {
    match report {
        Report::None => String::from_str(alloc, "unreported"),
        Report::Waits => String::from_str(alloc, "waits"),
        Report::Races => String::from_str(alloc, "races"),
        Report::Debug(file) => format!(in alloc; "debug {file}"),
    }
}

/// What is asked for, in a line.
pub(crate) fn asked_text(alloc: Global, asked: Option<Asked<'_>>) -> Result<String, AllocError> {
    match asked {
        None => String::from_str(alloc, "usage"),
        Some(Asked::Plain(plain)) => {
            let arguments = words_text(alloc, plain.arguments.as_slice())?;
            let (script, workers, steps, limit) = (
                plain.script,
                plain.workers,
                plain.steps,
                plain.limit,
            );
            let kept = plain.kept.unwrap_or("unkept");
            format!(in alloc; "plain {script} {arguments} {workers} {steps} {limit} {kept}")
        }
        Some(Asked::Replay(replay)) => {
            let arguments = words_text(alloc, replay.arguments.as_slice())?;
            let (schedule, script, limit) = (replay.schedule, replay.script, replay.limit);
            let report = report_text(alloc, replay.report)?;
            format!(in alloc; "replay {schedule} {script} {arguments} {limit} {report}")
        }
        Some(Asked::Generate(generate)) => {
            let (number, size, steps, limit) = (
                generate.number,
                generate.size,
                generate.steps,
                generate.limit,
            );
            let kept = generate.kept.unwrap_or("unkept");
            format!(in alloc; "generate {number} {size} {steps} {limit} {kept}")
        }
    }
}

/// The word for what counts as a difference.
fn difference_text(difference: Difference) -> &'static str {
    match difference {
        Difference::InEnd => "end",
        Difference::InEndOrOutput => "output",
    }
}

/// The search that is asked for, in a line.
pub(crate) fn search_text(alloc: Global, asked: Option<Search<'_>>) -> Result<String, AllocError> {
    let Some(search) = asked else {
        return String::from_str(alloc, "usage");
    };
    let difference = difference_text(search.difference);
    let plain = &search.plain;
    let arguments = words_text(alloc, plain.arguments.as_slice())?;
    let (script, runs, seed, switches) = (plain.script, search.runs, search.seed, search.switches);
    let (steps, limit, workers) = (plain.steps, plain.limit, plain.workers);
    let numbers = format!(in alloc; "{runs} {seed} {switches} {steps} {limit} {workers}")?;
    let kept = plain.kept.unwrap_or("unkept");
    format!(in alloc; "search {script} {arguments} {numbers} {difference} {kept}")
}
