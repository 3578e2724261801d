//! An evaluation is hosted by what its interpreter keeps: that answers what it wants, but for requests.

use std::alloc::Global;
use tt_calls::{Boxed, Request};
use tt_direct::Next;
use tt_frames::{Asking, Frame, Got, Job, Stack, Tcl, Want};
use tt_hosting::{Answered, Hosted};
use tt_kept::Kept;
use tt_outcomes::Ending;
use tt_text::NoMemory;

/// Where an evaluation comes to: a request, or its end.
pub(crate) type Reached = tt_hosting::Reached<Boxed<Request>, Ending>;

/// Scripts, evaluated in place as far as nothing is requested.
pub(crate) struct Direct;

impl Hosted<Tcl> for Direct {
    type Host = Kept;

    type Request = Boxed<Request>;

    ghost use Rattle.tt_outcomes.specs.declared.want.Want.TheVariants.{Ask};
    ghost use Rattle.tt_kept.specs.Leading.{LeadsTo};
    ghost use Rattle.tt_kept.proofs.Following.{same_asked};

    ghost wanted = { Ask };

    ghost leads = { LeadsTo };

    fn begin_job(
        alloc: Global,
        host: &mut Kept,
        stack: &mut Stack,
        job: Job,
    ) -> Result<Next, NoMemory> {
        let next = tt_direct::begin(alloc, host, stack, job)?;
        Ok(next)
    }

    fn end_call(
        alloc: Global,
        host: &mut Kept,
        stack: &mut Stack,
        frame: Frame,
        outcome: Ending,
    ) -> Result<Next, NoMemory> {
        let next = tt_direct::go_on(alloc, host, stack, frame, outcome)?;
        Ok(next)
    }

    fn give(
        alloc: Global,
        host: &mut Kept,
        stack: &mut Stack,
        asking: Asking,
        got: Got,
    ) -> Result<Next, NoMemory> {
        let next = tt_direct::take(alloc, host, stack, asking, got)?;
        Ok(next)
    }

    fn answer(
        alloc: Global,
        host: &mut Kept,
        want: Want,
    ) -> Result<Answered<Got, Boxed<Request>>, NoMemory> {
        match want {
            Want::Ask { request } => Ok(Answered::Outside(request)),
            want => {
                let got = host.answer(alloc, want)?;
                Ok(Answered::Got(got))
            }
        }
    }

    ghost same = { λ one other kept is replies request serving asked. same_asked is asked };

    ghost further = { λ last middle first new between old late early replies request serving asked.
        early replies request serving (late replies request serving asked) };
}
