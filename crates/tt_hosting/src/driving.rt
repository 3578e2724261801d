ghost use Rattle.std.specs.Prelude.{◌≡◌, [], IfOk, IsTrue};
ghost use Rattle.tt_evaluation.specs.Frames.{after_answer, is_waiting, plan_of};
ghost use Rattle.tt_evaluation.specs.Plans.{Asks, Ends};
ghost use Rattle.tt_evaluation.specs.declared.language.Move.TheVariants as moves;
ghost use Rattle.tt_hosting.specs.Hosting.{asks, from_reached, on_stack};
ghost use Rattle.tt_hosting.specs.inside.Moves.{MovesTo};

use crate::{Answered, Hosted};
use std::alloc::Global;
use tt_evaluation::{Language, Move, Pending, Stack};
use tt_text::NoMemory;

/// Where an evaluation comes to that its host can't take further.
#[derive(Debug, Drop)]
pub enum Reached<Request, Outcome> {
    /// It must ask this outside.
    Asks(Request),
    /// It has ended so.
    Over(Outcome),
}

// What comes of a move.
#[derive(Debug, Drop)]
enum Moved<Job, Want, Outcome, Frame, Asking, Request> {
    // Another move.
    Moves(Move<Job, Want, Outcome, Frame, Asking>),
    // The host can't take it further.
    Reaches(Reached<Request, Outcome>),
}

/// Begins a job on a stack, and answers what is reached first.
///
/// `NoMemory` if memory is refused, or all steps are taken.
pub fn begin<L: Language, H: Hosted<L>>(
    alloc: Global,
    host: &mut H::Host,
    stack: &mut Stack<L::State, L::Frame, L::Asking>,
    job: L::Job,
) -> Result<Reached<H::Request, L::Outcome>, NoMemory>
    ensures leads { IfOk result (λ reached. H.leads
        (from_reached L.plan L.after L.on_got H.wanted reached stack.new) host.new
        (on_stack L.plan L.after (L.plan job) stack.old) host.old) }
    ensures waiting { IfOk result (λ reached. asks reached ≡ is_waiting stack.new) }
{
    let first = H::begin_job(alloc, host, stack, job)?;
    let reached = run::<L, H>(alloc, host, stack, first)?;
    Ok(reached)
}

/// Goes on with the answer to what the stack waits for, and answers what is reached next.
///
/// `NoMemory` if memory is refused, or all steps are taken; then the stack is only fit to be dropped.
pub fn turn<L: Language, H: Hosted<L>>(
    alloc: Global,
    host: &mut H::Host,
    stack: &mut Stack<L::State, L::Frame, L::Asking>,
    got: L::Got,
) -> Result<Reached<H::Request, L::Outcome>, NoMemory>
    requires asked { IsTrue (is_waiting stack.old) }
    ensures leads { IfOk result (λ reached. H.leads
        (from_reached L.plan L.after L.on_got H.wanted reached stack.new) host.new
        (after_answer L.plan L.after L.on_got stack.old got) host.old) }
    ensures waiting { IfOk result (λ reached. asks reached ≡ is_waiting stack.new) }
{
    let Some(asking) = stack.asking.take() else {
        return Err(NoMemory);
    };
    let next = H::give(alloc, host, stack, asking, got)?;
    let reached = run::<L, H>(alloc, host, stack, next)?;
    Ok(reached)
}

// From a move to what is reached. It has no memory for more moves than can be counted.
fn run<L: Language, H: Hosted<L>>(
    alloc: Global,
    host: &mut H::Host,
    stack: &mut Stack<L::State, L::Frame, L::Asking>,
    first: Move<L::Job, L::Want, L::Outcome, L::Frame, L::Asking>,
) -> Result<Reached<H::Request, L::Outcome>, NoMemory>
    ensures leads { IfOk result (λ reached. H.leads
        (from_reached L.plan L.after L.on_got H.wanted reached stack.new) host.new
        (on_stack L.plan L.after (plan_of L.after L.on_got first) stack.old) host.old) }
    ensures waiting { IfOk result (λ reached. asks reached ≡ is_waiting stack.new) }
{
    let mut step = first;
    'moves: for _ in 0..u64::MAX {
        match advance::<L, H>(alloc, host, stack, step)? {
            Moved::Moves(next) => step = next,
            Moved::Reaches(reached) => return Ok(reached),
        }
    }
    Err(NoMemory)
}

// One move.
fn advance<L: Language, H: Hosted<L>>(
    alloc: Global,
    host: &mut H::Host,
    stack: &mut Stack<L::State, L::Frame, L::Asking>,
    step: Move<L::Job, L::Want, L::Outcome, L::Frame, L::Asking>,
) -> Result<Moved<L::Job, L::Want, L::Outcome, L::Frame, L::Asking, H::Request>, NoMemory>
    ensures { IfOk result (λ moved. MovesTo L.plan L.after L.on_got H.wanted H.leads moved stack.new host.new
        (on_stack L.plan L.after (plan_of L.after L.on_got step) stack.old) host.old) }
{
    match step {
        Move::Done(outcome) => {
            let moved = come_back::<L, H>(alloc, host, stack, outcome)?;
            Ok(moved)
        }
        Move::Ask(want, asking) => {
            let moved = ask::<L, H>(alloc, host, stack, want, asking)?;
            Ok(moved)
        }
        Move::Call(serves, job, frame) => {
            let moved = call::<L, H>(alloc, host, stack, Pending { frame, serves }, job)?;
            Ok(moved)
        }
        Move::Goto(job) => {
            let moved = go_over::<L, H>(alloc, host, stack, job)?;
            Ok(moved)
        }
    }
}

// The newest call goes on with its outcome; if there is none, all is evaluated.
fn come_back<L: Language, H: Hosted<L>>(
    alloc: Global,
    host: &mut H::Host,
    stack: &mut Stack<L::State, L::Frame, L::Asking>,
    outcome: L::Outcome,
) -> Result<Moved<L::Job, L::Want, L::Outcome, L::Frame, L::Asking, H::Request>, NoMemory>
    ensures { IfOk result (λ moved. MovesTo L.plan L.after L.on_got H.wanted H.leads moved stack.new host.new
        (on_stack L.plan L.after (λ state. Ends outcome state) stack.old) host.old) }
{
    match stack.calls.pop() {
        None => {
            wait(stack, None);
            Ok(Moved::Reaches(Reached::Over(outcome)))
        }
        Some(Pending { frame, .. }) => {
            let next = H::end_call(alloc, host, stack, frame, outcome)?;
            Ok(Moved::Moves(next))
        }
    }
}

// Something is wanted: the host answers it, or it must be asked outside.
fn ask<L: Language, H: Hosted<L>>(
    alloc: Global,
    host: &mut H::Host,
    stack: &mut Stack<L::State, L::Frame, L::Asking>,
    want: L::Want,
    asking: L::Asking,
) -> Result<Moved<L::Job, L::Want, L::Outcome, L::Frame, L::Asking, H::Request>, NoMemory>
    ensures { IfOk result (λ moved. MovesTo L.plan L.after L.on_got H.wanted H.leads moved stack.new host.new
        (on_stack L.plan L.after (λ state. Asks want state (L.on_got asking)) stack.old) host.old) }
{
    match H::answer(alloc, host, want)? {
        Answered::Got(got) => {
            let next = H::give(alloc, host, stack, asking, got)?;
            Ok(Moved::Moves(next))
        }
        Answered::Outside(request) => {
            wait(stack, Some(asking));
            Ok(Moved::Reaches(Reached::Asks(request)))
        }
    }
}

// A job is called, for one step.
fn call<L: Language, H: Hosted<L>>(
    alloc: Global,
    host: &mut H::Host,
    stack: &mut Stack<L::State, L::Frame, L::Asking>,
    call: Pending<L::Frame>,
    job: L::Job,
) -> Result<Moved<L::Job, L::Want, L::Outcome, L::Frame, L::Asking, H::Request>, NoMemory>
    ensures { IfOk result (λ moved. MovesTo L.plan L.after L.on_got H.wanted H.leads moved stack.new host.new
        (on_stack L.plan L.after (plan_of L.after L.on_got (moves.Call call.serves job call.frame)) stack.old)
        host.old) }
{
    stack.steps = stack.steps.checked_sub(1).ok_or(NoMemory)?;
    stack.calls.push(call)?;
    let next = H::begin_job(alloc, host, stack, job)?;
    Ok(Moved::Moves(next))
}

// A job is gone over into, for one step.
fn go_over<L: Language, H: Hosted<L>>(
    alloc: Global,
    host: &mut H::Host,
    stack: &mut Stack<L::State, L::Frame, L::Asking>,
    job: L::Job,
) -> Result<Moved<L::Job, L::Want, L::Outcome, L::Frame, L::Asking, H::Request>, NoMemory>
    ensures { IfOk result (λ moved. MovesTo L.plan L.after L.on_got H.wanted H.leads moved stack.new host.new
        (on_stack L.plan L.after (plan_of L.after L.on_got (moves.Goto job)) stack.old) host.old) }
{
    stack.steps = stack.steps.checked_sub(1).ok_or(NoMemory)?;
    let next = H::begin_job(alloc, host, stack, job)?;
    Ok(Moved::Moves(next))
}

// This goes on with the answer that is waited for; nothing, if none is.
fn wait<State: Drop, Frame: Drop, Asking: Drop>(
    stack: &mut Stack<State, Frame, Asking>,
    asking: Option<Asking>,
)
    ensures { stack.new ≡ record stack.old { asking = asking } }
{
    stack.asking = asking;
}
