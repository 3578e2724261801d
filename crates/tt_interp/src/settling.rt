//! An evaluation goes on with what it gets here, up to a request or its end.
ghost use Rattle.std.specs.Prelude.{◌≡◌, IfOk, IsTrue, Some};
ghost use Rattle.tt_kept.specs.Asking.{goes_on};
ghost use Rattle.tt_interp.specs.Interps as interps;
ghost use Rattle.tt_kept.specs.Leading.{LeadsTo};
ghost use Rattle.tt_interp.specs.declared.interp.Standing.TheVariants as standing;
ghost use Rattle.tt_evaluation.specs.Frames.{is_waiting};

use crate::hosted::Reached;
use crate::{Kept, Paused, Standing};
use std::alloc::Global;
use tt_calls::{Boxed, Reply, Request, Start};
use tt_frames::Got;
use tt_text::NoMemory;

/// Where an evaluation stands after this reply, or first.
///
/// `NoMemory` if memory is refused.
pub(crate) fn resumed(
    alloc: Global,
    kept: &mut Kept,
    standing: Standing,
    reply: Option<Reply>,
) -> Result<Standing, NoMemory>
    requires waits { interps.Waits standing }
    requires fits { IsTrue (interps.fits standing reply) }
    ensures leads { IfOk result (λ next.
        interps.GoesOnFrom (interps.coming next) kept.new (interps.coming standing) kept.old reply) }
    ensures halts { IfOk result (λ next. IsTrue (interps.is_halted next)) }
{
    match (standing, reply) {
        (Standing::Fresh { start, me, limit }, None) => begun(alloc, kept, start, me, limit),
        (Standing::Asks { stack, request }, Some(reply)) => {
            after_reply(alloc, kept, stack, request, reply)
        }
        _ => Err(NoMemory),
    }
}

fn begun(
    alloc: Global,
    kept: &mut Kept,
    start: Start,
    me: u32,
    limit: u64,
) -> Result<Standing, NoMemory>
    ensures leads { IfOk result (λ next.
        LeadsTo (interps.coming next) kept.new (interps.coming (standing.Fresh start me limit)) kept.old) }
    ensures halts { IfOk result (λ next. IsTrue (interps.is_halted next)) }
{
    let (stack, reached) = Paused::begin(alloc, kept, start, me, limit)?;
    Ok(standing_of(reached, stack))
}

fn after_reply(
    alloc: Global,
    kept: &mut Kept,
    stack: Paused,
    request: Boxed<Request>,
    reply: Reply,
) -> Result<Standing, NoMemory>
    requires waits { IsTrue (is_waiting stack) }
    requires goes_on { IsTrue (goes_on request) }
    ensures leads { IfOk result (λ next. interps.GoesOnFrom (interps.coming next) kept.new
        (interps.coming (standing.Asks stack request)) kept.old (Some reply)) }
    ensures halts { IfOk result (λ next. IsTrue (interps.is_halted next)) }
{
    let mut stack = stack;
    let reached = stack.turn(alloc, kept, Got::Reply(reply))?;
    Ok(standing_of(reached, stack))
}

fn standing_of(reached: Reached, stack: Paused) -> Standing
    ensures { result ≡ interps.standing_of reached stack }
{
    match reached {
        Reached::Asks(request) => Standing::Asks { stack, request },
        Reached::Over(ending) => Standing::Over { stack, ending },
    }
}
