ghost use Rattle.std.specs.Prelude.{◌≡◌};
ghost use Rattle.tt_debug.specs.Names.{chan_name, lock_name, name_of, pool_name, tsv_name};

use tt_calls::{ChanCall, LockCall, PoolCall, Request, TsvCall};

/// What a request is called; a call on shared variables, a lock, a pool or a channel by its own name.
pub(crate) fn name_of(request: &Request) -> &'static [u8]
    ensures { result.now ≡ name_of request.now }
{
    match request {
        Request::WriteOut { .. } => b"WriteOut",
        Request::WriteErr { .. } => b"WriteErr",
        Request::ReadLine => b"ReadLine",
        Request::StdinEof => b"StdinEof",
        Request::Create { .. } => b"Create",
        Request::Preserve { .. } => b"Preserve",
        Request::Release { .. } => b"Release",
        Request::Names => b"Names",
        Request::Exists { .. } => b"Exists",
        Request::Join { .. } => b"Join",
        Request::AwaitEnd { .. } => b"AwaitEnd",
        Request::Configure { .. } => b"Configure",
        Request::ErrorProc { .. } => b"ErrorProc",
        Request::Send { .. } => b"Send",
        Request::Await { .. } => b"Await",
        Request::Take => b"Take",
        Request::TakeReady => b"TakeReady",
        Request::Deliver { .. } => b"Deliver",
        Request::Report { .. } => b"Report",
        Request::Broadcast { .. } => b"Broadcast",
        Request::Tsv(call) => tsv_name(call.get()),
        Request::Lock(call) => lock_name(call.get()),
        Request::Pool(call) => pool_name(call.get()),
        Request::Chan(call) => chan_name(call.get()),
        Request::AddTimer { .. } => b"AddTimer",
        Request::DropTimer { .. } => b"DropTimer",
        Request::Sleep { .. } => b"Sleep",
        Request::AwaitTime => b"AwaitTime",
        Request::Cancel { .. } => b"Cancel",
        Request::Pause => b"Pause",
        Request::End { .. } => b"End",
        Request::Exit { .. } => b"Exit",
    }
}

fn tsv_name(call: &TsvCall) -> &'static [u8]
    ensures { result.now ≡ tsv_name call.now }
{
    match call {
        TsvCall::Hold { .. } => b"Hold",
        TsvCall::Unhold { .. } => b"Unhold",
        TsvCall::Run { .. } => b"Run",
    }
}

fn lock_name(call: &LockCall) -> &'static [u8]
    ensures { result.now ≡ lock_name call.now }
{
    match call {
        LockCall::Create { .. } => b"Create",
        LockCall::Destroy { .. } => b"Destroy",
        LockCall::Lock { .. } => b"Lock",
        LockCall::ReadLock { .. } => b"ReadLock",
        LockCall::WriteLock { .. } => b"WriteLock",
        LockCall::Unlock { .. } => b"Unlock",
        LockCall::Notify { .. } => b"Notify",
        LockCall::CondWait { .. } => b"CondWait",
        LockCall::CondTake { .. } => b"CondTake",
    }
}

fn pool_name(call: &PoolCall) -> &'static [u8]
    ensures { result.now ≡ pool_name call.now }
{
    match call {
        PoolCall::Create { .. } => b"Create",
        PoolCall::Names => b"Names",
        PoolCall::Post { .. } => b"Post",
        PoolCall::Look { .. } => b"Look",
        PoolCall::Cancel { .. } => b"Cancel",
        PoolCall::Get { .. } => b"Get",
        PoolCall::Preserve { .. } => b"Preserve",
        PoolCall::Release { .. } => b"Release",
        PoolCall::Suspend { .. } => b"Suspend",
        PoolCall::JobTake { .. } => b"JobTake",
        PoolCall::JobDone { .. } => b"JobDone",
    }
}

fn chan_name(call: &ChanCall) -> &'static [u8]
    ensures { result.now ≡ chan_name call.now }
{
    match call {
        ChanCall::Pipe => b"Pipe",
        ChanCall::Put { .. } => b"Put",
        ChanCall::GetLine { .. } => b"GetLine",
        ChanCall::Eof { .. } => b"Eof",
        ChanCall::Close { .. } => b"Close",
        ChanCall::Detach { .. } => b"Detach",
        ChanCall::Attach { .. } => b"Attach",
        ChanCall::Transfer { .. } => b"Transfer",
        ChanCall::AwaitMove { .. } => b"AwaitMove",
    }
}
