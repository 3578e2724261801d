ghost use Rattle.std.specs.Prelude.{◌≡◌, ℕ, List, [], IfOk};
ghost use Rattle.tt_evaluation.specs.Frames.{plan_of};
ghost use Rattle.tt_evaluation.specs.Plans.{Stop};
ghost use Rattle.tt_hosting.specs.Hosting.{Coming, IsAnswered, on_stack};

use std::alloc::Global;
use tt_evaluation::{Language, Move, Stack};
use tt_text::NoMemory;

/// What a host says of a want.
#[derive(Debug, Drop)]
pub enum Answered<Got, Request> {
    /// This is the answer.
    Got(Got),
    /// It must be asked outside.
    Outside(Request),
}

/// A language in a host, which keeps something and answers wants by it.
///
/// Each step may go on for as long as the host answers what is wanted, and may leave calls on the stack. Its contract
/// says where that leads: what is asked outside from there on, is asked from where the step began.
pub trait Hosted<L: Language> {
    /// What answers wants, and what it keeps.
    type Host;
    /// What is asked outside.
    type Request: Drop;

    ghost use Rattle.tt_hosting.specs.Hosting.{Leading};

    ghost wanted: { Self.Request → L.Want };

    ghost leads: { Leading L.Want L.Got L.Outcome L.State Self.Host };

    /// Begins a job.
    ///
    /// `NoMemory` if memory is refused, or all steps are taken.
    fn begin_job(
        alloc: Global,
        host: &mut Self::Host,
        stack: &mut Stack<L::State, L::Frame, L::Asking>,
        job: L::Job,
    ) -> Result<Move<L::Job, L::Want, L::Outcome, L::Frame, L::Asking>, NoMemory>
        ensures begun { IfOk result (λ move. leads
            (on_stack L.plan L.after (plan_of L.after L.on_got move) stack.new) host.new
            (on_stack L.plan L.after (L.plan job) stack.old) host.old) };

    /// Goes on with the outcome of a job that was called.
    ///
    /// `NoMemory` if memory is refused, or all steps are taken.
    fn end_call(
        alloc: Global,
        host: &mut Self::Host,
        stack: &mut Stack<L::State, L::Frame, L::Asking>,
        frame: L::Frame,
        outcome: L::Outcome,
    ) -> Result<Move<L::Job, L::Want, L::Outcome, L::Frame, L::Asking>, NoMemory>
        ensures gone_on { IfOk result (λ move. leads
            (on_stack L.plan L.after (plan_of L.after L.on_got move) stack.new) host.new
            (on_stack L.plan L.after (L.after frame outcome) stack.old) host.old) };

    /// Goes on with the answer to what was asked.
    ///
    /// `NoMemory` if memory is refused, or all steps are taken.
    fn give(
        alloc: Global,
        host: &mut Self::Host,
        stack: &mut Stack<L::State, L::Frame, L::Asking>,
        asking: L::Asking,
        got: L::Got,
    ) -> Result<Move<L::Job, L::Want, L::Outcome, L::Frame, L::Asking>, NoMemory>
        ensures taken { IfOk result (λ move. leads
            (on_stack L.plan L.after (plan_of L.after L.on_got move) stack.new) host.new
            (on_stack L.plan L.after (L.on_got asking got) stack.old) host.old) };

    /// The host answers a want, or says that it must be asked outside.
    ///
    /// `NoMemory` if memory is refused.
    fn answer(
        alloc: Global,
        host: &mut Self::Host,
        want: L::Want,
    ) -> Result<Answered<L::Got, Self::Request>, NoMemory>
        ensures answered { IfOk result (λ answered. IsAnswered wanted leads answered want host.new host.old) };

    ghost same: { (one other : Coming L.Want L.Got L.Outcome L.State) (host : Self.Host)
        → ((answers : List L.Got) → one answers ≡ other answers)
        → leads one host other host };

    ghost further: { (last middle first : Coming L.Want L.Got L.Outcome L.State) (host between before : Self.Host)
        → leads last host middle between
        → leads middle between first before
        → leads last host first before };
}
