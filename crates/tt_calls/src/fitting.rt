ghost use Rattle.std.specs.Prelude.{◌≡◌, ◌↔◌, IsTrue, Contains};
ghost use Rattle.tt_calls.specs.Fitting.{chan_shapes, lock_shapes, pool_shapes, shape_of, shapes_for, tsv_shapes};

use crate::reply::Shape;
use crate::{ChanCall, LockCall, PoolCall, Reply, Request, TsvCall};

/// Whether the reply is of a kind that the request is answered with.
pub fn fits(request: &Request, reply: &Reply) -> bool
    ensures fits { IsTrue result ↔ Contains (shapes_for request.now) (shape_of reply.now) }
{
    shapes_for(request).contains(&reply.shape())
}

fn shapes_for(request: &Request) -> &'static [Shape]
    ensures { result.now ≡ shapes_for request.now }
{
    match request {
        Request::ReadLine => &[Shape::Line, Shape::LineEnd, Shape::Refused],
        Request::Join { .. } => &[Shape::Waits, Shape::Refused],
        Request::Configure { .. } => &[Shape::Value, Shape::Go, Shape::Refused],
        Request::ErrorProc { .. } => &[Shape::Value, Shape::Go],
        Request::Send { .. } => &[Shape::Posted, Shape::Refused],
        Request::Await { .. } => &[Shape::Answer, Shape::Died, Shape::Refused],
        Request::Take => &[Shape::Event],
        Request::TakeReady => &[Shape::Event, Shape::NoEvent],
        Request::Deliver { .. } => &[Shape::Served, Shape::Refused],
        Request::Report { .. } => &[Shape::Served],
        Request::Tsv(call) => tsv_shapes(call.get()),
        Request::Lock(call) => lock_shapes(call.get()),
        Request::Pool(call) => pool_shapes(call.get()),
        Request::Chan(call) => chan_shapes(call.get()),
        Request::StdinEof | Request::Names | Request::Exists { .. } => &[Shape::Value],
        Request::Create { .. }
        | Request::Preserve { .. }
        | Request::Release { .. }
        | Request::AwaitEnd { .. }
        | Request::AddTimer { .. }
        | Request::Cancel { .. } => &[Shape::Value, Shape::Refused],
        Request::Sleep { .. } => &[Shape::Go, Shape::Refused],
        Request::WriteOut { .. }
        | Request::WriteErr { .. }
        | Request::Broadcast { .. }
        | Request::DropTimer { .. }
        | Request::AwaitTime
        | Request::Pause
        | Request::End { .. }
        | Request::Exit { .. } => &[Shape::Go],
    }
}

fn tsv_shapes(call: &TsvCall) -> &'static [Shape]
    ensures { result.now ≡ tsv_shapes call.now }
{
    match call {
        TsvCall::Hold { .. } | TsvCall::Unhold { .. } => &[Shape::Go, Shape::Refused],
        TsvCall::Run { .. } => &[Shape::Value, Shape::Found, Shape::Refused],
    }
}

fn lock_shapes(call: &LockCall) -> &'static [Shape]
    ensures { result.now ≡ lock_shapes call.now }
{
    match call {
        LockCall::Create { .. } => &[Shape::Value],
        _ => &[Shape::Go, Shape::Refused],
    }
}

fn pool_shapes(call: &PoolCall) -> &'static [Shape]
    ensures { result.now ≡ pool_shapes call.now }
{
    match call {
        PoolCall::Names => &[Shape::Value],
        PoolCall::Look { .. } => &[Shape::Lists, Shape::Event, Shape::Refused],
        PoolCall::Cancel { .. } => &[Shape::Lists, Shape::Refused],
        PoolCall::Get { .. } => &[Shape::Answer, Shape::Refused],
        PoolCall::JobTake { .. } => &[Shape::Job, Shape::JobStop, Shape::Refused],
        PoolCall::Suspend { .. } | PoolCall::JobDone { .. } => &[Shape::Go, Shape::Refused],
        PoolCall::Create { .. }
        | PoolCall::Post { .. }
        | PoolCall::Preserve { .. }
        | PoolCall::Release { .. } => &[Shape::Value, Shape::Refused],
    }
}

fn chan_shapes(call: &ChanCall) -> &'static [Shape]
    ensures { result.now ≡ chan_shapes call.now }
{
    match call {
        ChanCall::Pipe => &[Shape::Value],
        ChanCall::GetLine { .. } => &[Shape::Line, Shape::LineEnd, Shape::Refused],
        ChanCall::Eof { .. } => &[Shape::Value, Shape::Refused],
        ChanCall::Transfer { .. } => &[Shape::Go, Shape::Value, Shape::Refused],
        ChanCall::AwaitMove { .. } => &[Shape::Go, Shape::Died, Shape::Refused],
        ChanCall::Put { .. }
        | ChanCall::Close { .. }
        | ChanCall::Detach { .. }
        | ChanCall::Attach { .. } => &[Shape::Go, Shape::Refused],
    }
}
