ghost use Rattle.std.specs.Prelude.{◌≡◌, ◌<◌, ◌≤◌, length, IfOk};
ghost use Rattle.std.specs.List.{prefix_len};
ghost use Rattle.tt_lists.specs.Reading.{is_plain, front_run, stops};

use std::alloc::Global;
use tt_text::{NoMemory, Text, backslash, is_white_space};

/// What ends a run of bytes.
#[derive(Clone, Copy)]
pub(crate) enum Stop {
    WhiteSpace,
    Quote,
}

/// Bytes up to one that stops them, as they are written in a list.
#[derive(Drop)]
pub(crate) struct Run {
    /// What they stand for, with backslash sequences replaced.
    pub(crate) value: Text,
    /// How many they are.
    pub(crate) takes: usize,
}

fn stops(stop: Stop, b: u8) -> bool
    ensures { result ≡ stops stop b }
{
    match stop {
        Stop::WhiteSpace => is_white_space(b),
        Stop::Quote => b == b'"',
    }
}

/// The run at the front of the text.
pub(crate) fn read_run(alloc: Global, text: &[u8], stop: Stop) -> Result<Run, NoMemory>
    ensures run { IfOk result (λ read. read ≡ front_run (stops stop) 0 text.now) }
{
    let mut value = Text::new(alloc);
    let mut at = 0;
    while at < text.len() && !stops(stop, text[at]) {
        if text[at] == b'\\' {
            let sequence = backslash(text, at);
            value.push_bytes(&sequence.bytes[..usize::from(sequence.len)])?;
            at = sequence.next;
        } else {
            let end = at + plain_length(&text[at..], stop);
            value.push_bytes(&text[at..end])?;
            at = end;
        }
    }
    Ok(Run { value, takes: at })
}

// How many bytes before a stop and before a backslash the text begins with.
fn plain_length(text: &[u8], stop: Stop) -> usize
    ensures value { result ≡ prefix_len (is_plain (stops stop)) text.now }
    ensures within { result ≤ length text.now }
{
    text.iter()
        .take_while(|b| !stops(stop, **b) && **b != b'\\')
        .count()
}
