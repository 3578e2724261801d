ghost use Rattle.std.specs.Prelude.{◌≡◌, IfOk};
ghost use Rattle.tt_calls.specs.declared.request.Request.TheVariants.{Configure, Send};

use crate::calls::{copy_chan_call, copy_lock_call, copy_pool_call, copy_tsv_call};
use std::alloc::Global;
use tt_calls::{Mode, Request};
use tt_text::{NoMemory, Text, Texts};

/// A second request that is equal.
///
/// `NoMemory` if the memory for it is refused, as for the others here.
pub fn copy_request(alloc: Global, request: &Request) -> Result<Request, NoMemory>
    ensures copied { IfOk result (λ copy. copy ≡ request.now) }
{
    match request {
        Request::WriteOut { text } => Ok(Request::WriteOut { text: text.copy()? }),
        Request::WriteErr { text } => Ok(Request::WriteErr { text: text.copy()? }),
        Request::ReadLine => Ok(Request::ReadLine),
        Request::StdinEof => Ok(Request::StdinEof),
        Request::Create {
            joinable,
            preserved,
            script,
        } => Ok(Request::Create {
            joinable: *joinable,
            preserved: *preserved,
            script: script.copy()?,
        }),
        Request::Preserve { id } => Ok(Request::Preserve { id: id.copy()? }),
        Request::Release { id } => Ok(Request::Release { id: id.copy()? }),
        Request::Names => Ok(Request::Names),
        Request::Exists { id } => Ok(Request::Exists { id: id.copy()? }),
        Request::Join { id } => Ok(Request::Join { id: id.copy()? }),
        Request::AwaitEnd { thread } => Ok(Request::AwaitEnd { thread: *thread }),
        Request::Configure { id, words } => copy_configure(alloc, id, words),
        Request::ErrorProc { name } => Ok(Request::ErrorProc {
            name: copy_option(name)?,
        }),
        Request::Send {
            id,
            script,
            mode,
            variable,
            head,
        } => copy_send(id, script, *mode, variable, *head),
        Request::Await { n } => Ok(Request::Await { n: *n }),
        Request::Take => Ok(Request::Take),
        Request::TakeReady => Ok(Request::TakeReady),
        Request::Deliver { n, outcome } => Ok(Request::Deliver {
            n: *n,
            outcome: outcome.copy()?,
        }),
        Request::Report { trace, plain } => Ok(Request::Report {
            trace: trace.copy()?,
            plain: *plain,
        }),
        Request::Broadcast { script } => Ok(Request::Broadcast {
            script: script.copy()?,
        }),
        Request::Tsv(call) => Ok(Request::Tsv(copy_tsv_call(alloc, call.get())?)),
        Request::Lock(call) => Ok(Request::Lock(copy_lock_call(alloc, call.get())?)),
        Request::Pool(call) => Ok(Request::Pool(copy_pool_call(alloc, call.get())?)),
        Request::Chan(call) => Ok(Request::Chan(copy_chan_call(alloc, call.get())?)),
        Request::AddTimer { after, script } => Ok(Request::AddTimer {
            after: *after,
            script: script.copy()?,
        }),
        Request::DropTimer { number } => Ok(Request::DropTimer { number: *number }),
        Request::Sleep { after } => Ok(Request::Sleep { after: *after }),
        Request::AwaitTime => Ok(Request::AwaitTime),
        Request::Cancel { id, unwind } => Ok(Request::Cancel {
            id: id.copy()?,
            unwind: *unwind,
        }),
        Request::Pause => Ok(Request::Pause),
        Request::End { code } => Ok(Request::End { code: *code }),
        Request::Exit { code } => Ok(Request::Exit { code: *code }),
    }
}

fn copy_configure(alloc: Global, id: &Text, words: &Texts) -> Result<Request, NoMemory>
    ensures { IfOk result (λ copy. copy ≡ Configure id.now words.now) }
{
    let id = id.copy()?;
    let words = Texts::from_copies(alloc, words.as_slice())?;
    Ok(Request::Configure { id, words })
}

fn copy_send(
    id: &Text,
    script: &Text,
    mode: Mode,
    variable: &Option<Text>,
    head: bool,
) -> Result<Request, NoMemory>
    ensures { IfOk result (λ copy. copy ≡ Send id.now script.now mode variable.now head) }
{
    let id = id.copy()?;
    let script = script.copy()?;
    let variable = copy_option(variable)?;
    Ok(Request::Send {
        id,
        script,
        mode,
        variable,
        head,
    })
}

fn copy_option(text: &Option<Text>) -> Result<Option<Text>, NoMemory>
    ensures { IfOk result (λ copy. copy ≡ text.now) }
{
    match text {
        Some(text) => Ok(Some(text.copy()?)),
        None => Ok(None),
    }
}
