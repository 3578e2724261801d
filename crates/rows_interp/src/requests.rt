//! A request is named, with what it holds: truth as 0 or 1, what is missing as `-`.

use crate::calls::{tell_chan, tell_lock, tell_pool, tell_tsv};
use crate::telling::Telling;
use rows_reader::replaced;
use std::alloc::Global;
use tt_calls::{Mode, Request};
use tt_text::{NoMemory, Text};

/// The request as a list on one line.
pub(crate) fn request_text(alloc: Global, request: &Request) -> anyhow::Result<Text> {
    let mut telling = Telling::new(alloc);
    telling.word(name_of(request))?;
    tell_fields(&mut telling, request)?;
    let list = telling.joined()?;
    replaced(alloc, list.as_bytes(), "\n", "\\n")
}

fn name_of(request: &Request) -> &'static str {
    match request {
        Request::WriteOut { .. } => "WriteOut",
        Request::WriteErr { .. } => "WriteErr",
        Request::ReadLine => "ReadLine",
        Request::StdinEof => "StdinEof",
        Request::Create { .. } => "Create",
        Request::Preserve { .. } => "Preserve",
        Request::Release { .. } => "Release",
        Request::Names => "Names",
        Request::Exists { .. } => "Exists",
        Request::Join { .. } => "Join",
        Request::AwaitEnd { .. } => "AwaitEnd",
        Request::Configure { .. } => "Configure",
        Request::ErrorProc { .. } => "ErrorProc",
        Request::Send { .. } => "Send",
        Request::Await { .. } => "Await",
        Request::Take => "Take",
        Request::TakeReady => "TakeReady",
        Request::Deliver { .. } => "Deliver",
        Request::Report { .. } => "Report",
        Request::Broadcast { .. } => "Broadcast",
        Request::Tsv(_) => "Tsv",
        Request::Lock(_) => "Lock",
        Request::Pool(_) => "Pool",
        Request::Chan(_) => "Chan",
        Request::AddTimer { .. } => "AddTimer",
        Request::DropTimer { .. } => "DropTimer",
        Request::Sleep { .. } => "Sleep",
        Request::AwaitTime => "AwaitTime",
        Request::Cancel { .. } => "Cancel",
        Request::Pause => "Pause",
        Request::End { .. } => "End",
        Request::Exit { .. } => "Exit",
    }
}

fn tell_fields(telling: &mut Telling, request: &Request) -> Result<(), NoMemory> {
    match request {
        Request::ReadLine
        | Request::StdinEof
        | Request::Names
        | Request::Take
        | Request::TakeReady
        | Request::AwaitTime
        | Request::Pause => Ok(()),
        Request::WriteOut { text } | Request::WriteErr { text } => telling.text(text),
        Request::Broadcast { script } => telling.text(script),
        Request::Preserve { id }
        | Request::Release { id }
        | Request::Exists { id }
        | Request::Join { id } => telling.text(id),
        Request::AwaitEnd { thread } => telling.whole(i64::from(*thread)),
        Request::ErrorProc { name } => telling.name(name.as_ref()),
        Request::Await { n } => telling.post(*n),
        Request::DropTimer { number } => telling.post(*number),
        Request::Sleep { after } => telling.post(*after),
        Request::End { code } | Request::Exit { code } => telling.whole(*code),
        Request::Tsv(call) => tell_tsv(telling, call.get()),
        Request::Lock(call) => tell_lock(telling, call.get()),
        Request::Pool(call) => tell_pool(telling, call.get()),
        Request::Chan(call) => tell_chan(telling, call.get()),
        Request::Create { .. }
        | Request::Configure { .. }
        | Request::Send { .. }
        | Request::Deliver { .. }
        | Request::AddTimer { .. }
        | Request::Cancel { .. }
        | Request::Report { .. } => tell_several(telling, request),
    }
}

fn tell_several(telling: &mut Telling, request: &Request) -> Result<(), NoMemory> {
    match request {
        Request::Create {
            joinable,
            preserved,
            script,
        } => {
            telling.flag(*joinable)?;
            telling.flag(*preserved)?;
            telling.text(script)
        }
        Request::Configure { id, words } => {
            telling.text(id)?;
            telling.list(words)
        }
        Request::Deliver { n, outcome } => {
            telling.post(*n)?;
            telling.outcome(outcome)
        }
        Request::Report { trace, plain } => {
            telling.text(trace)?;
            telling.flag(*plain)
        }
        Request::AddTimer { after, script } => {
            telling.post(*after)?;
            telling.text(script)
        }
        Request::Cancel { id, unwind } => {
            telling.text(id)?;
            telling.flag(*unwind)
        }
        _ => tell_send(telling, request),
    }
}

fn tell_send(telling: &mut Telling, request: &Request) -> Result<(), NoMemory> {
    if let Request::Send {
        id,
        script,
        mode,
        variable,
        head,
    } = request
    {
        telling.text(id)?;
        telling.text(script)?;
        telling.word(mode_name(*mode))?;
        telling.name(variable.as_ref())?;
        telling.flag(*head)?;
    }
    Ok(())
}

fn mode_name(mode: Mode) -> &'static str {
    match mode {
        Mode::Waits => "Waits",
        Mode::Later => "Later",
    }
}
