use std::alloc::Global;
use tt_calls::{Code, Event, Outcome, Reply};
use tt_lists::join_list;
use tt_number::whole_text;
use tt_shared::Applied;
use tt_text::{Text, Texts};

/// How codes of outcomes are written (catch(n)).
pub(crate) const CODES: [(&str, Code); 5] = [
    ("ok", Code::Fine),
    ("error", Code::Failed),
    ("return", Code::Returned),
    ("break", Code::Broke),
    ("continue", Code::Continued),
];

/// What answering a request gives, as a list: the reply and its values, then `out`, `err`, `over` and `made`, if there
/// is something to put on standard output or error, the run is over, or threads were made.
pub(crate) fn answer_text(alloc: Global, gives: &Applied) -> anyhow::Result<Text> {
    let mut words = Texts::new(alloc);
    push_reply(alloc, &mut words, &gives.reply)?;
    if !gives.out.is_empty() {
        push_texts(alloc, &mut words, "out", &[&gives.out])?;
    }
    if !gives.err.is_empty() {
        push_texts(alloc, &mut words, "err", &[&gives.err])?;
    }
    if let Some(code) = gives.over {
        push_number(alloc, &mut words, "over", i64::from(code))?;
    }
    if gives.made > 0 {
        push_number(alloc, &mut words, "made", i64::from(gives.made))?;
    }
    let text = join_list(alloc, words.as_slice())?;
    Ok(text)
}

fn push(alloc: Global, words: &mut Texts, word: &str) -> anyhow::Result<()> {
    words.push(Text::from_bytes(alloc, word.as_bytes())?)?;
    Ok(())
}

fn push_texts(alloc: Global, words: &mut Texts, name: &str, texts: &[&Text]) -> anyhow::Result<()> {
    push(alloc, words, name)?;
    for text in texts {
        words.push(text.copy()?)?;
    }
    Ok(())
}

fn push_number(alloc: Global, words: &mut Texts, name: &str, number: i64) -> anyhow::Result<()> {
    push(alloc, words, name)?;
    words.push(whole_text(alloc, number)?)?;
    Ok(())
}

fn push_post(alloc: Global, words: &mut Texts, name: &str, number: u64) -> anyhow::Result<()> {
    push_number(alloc, words, name, i64::try_from(number)?)
}

fn push_reply(alloc: Global, words: &mut Texts, reply: &Reply) -> anyhow::Result<()> {
    match reply {
        Reply::Go => push(alloc, words, "go"),
        Reply::Value(text) => push_texts(alloc, words, "value", &[text]),
        Reply::Refused(text) => push_texts(alloc, words, "refused", &[text]),
        Reply::Found(is, text) => {
            push_number(alloc, words, "found", i64::from(*is))?;
            words.push(text.copy()?)?;
            Ok(())
        }
        Reply::Posted(n) => push_post(alloc, words, "posted", *n),
        Reply::Waits(thread) => push_number(alloc, words, "waits-for", i64::from(*thread)),
        Reply::Answer(outcome) => push_outcome(alloc, words, outcome),
        Reply::Died => push(alloc, words, "died"),
        Reply::Event(event) => push_event(alloc, words, event),
        Reply::NoEvent => push(alloc, words, "no-event"),
        Reply::Served(stops) => push_number(alloc, words, "served", i64::from(*stops)),
        Reply::Line(text) => push_texts(alloc, words, "line", &[text]),
        Reply::LineEnd => push(alloc, words, "line-end"),
        Reply::Job(n, script, detached) => {
            push_post(alloc, words, "job", *n)?;
            words.push(script.copy()?)?;
            push(alloc, words, if *detached { "detached" } else { "-" })
        }
        Reply::JobStop => push(alloc, words, "job-stop"),
        Reply::Lists(first, second) => push_texts(alloc, words, "lists", &[first, second]),
        Reply::Cancelled(unwinds) => push_number(alloc, words, "cancelled", i64::from(*unwinds)),
    }
}

// `answer CODE VALUE`; of an error also its trace.
fn push_outcome(alloc: Global, words: &mut Texts, outcome: &Outcome) -> anyhow::Result<()> {
    push(alloc, words, "answer")?;
    for (name, code) in CODES {
        if outcome.code == code {
            push(alloc, words, name)?;
        }
    }
    words.push(outcome.value.to_text(alloc)?)?;
    if outcome.code == Code::Failed {
        words.push(outcome.trace.copy()?)?;
    }
    Ok(())
}

// `script POST SCRIPT`, then whether its result is to be delivered, and whether its errors are reported plainly.
fn push_event(alloc: Global, words: &mut Texts, event: &Event) -> anyhow::Result<()> {
    match event {
        Event::Script {
            n,
            script,
            answer,
            plain,
        } => {
            push_post(alloc, words, "script", *n)?;
            words.push(script.copy()?)?;
            push(alloc, words, if *answer { "answer" } else { "-" })?;
            push(alloc, words, if *plain { "plain" } else { "-" })
        }
        Event::SetVar { name, value } => push_texts(alloc, words, "set-var", &[name, value]),
        Event::Moved { chan } => push_texts(alloc, words, "moved", &[chan]),
        Event::Timer { n, script } => {
            push_post(alloc, words, "timer", *n)?;
            Ok(words.push(script.copy()?)?)
        }
        Event::Stop => push(alloc, words, "stop"),
    }
}
