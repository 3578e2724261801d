ghost use Rattle.std.specs.Prelude.{◌≡◌, IfOk};
ghost use Rattle.tt_evaluation.specs.Frames.{plan_of};

use std::alloc::Global;
use tt_text::NoMemory;

/// What a language does next.
#[derive(Debug, Drop)]
pub enum Move<Job, Want, Outcome, Frame, Asking> {
    /// The job has this outcome.
    Done(Outcome),
    /// It asks, and the asking goes on with what it gets.
    Ask(Want, Asking),
    /// It calls a job, which serves this post if it serves one; the frame goes on with that job's outcome.
    Call(Option<u64>, Job, Frame),
    /// It goes over into a job, and keeps nothing.
    Goto(Job),
}

/// A language: what its jobs mean, each by a plan, and how an interpreter takes each of its steps.
///
/// A frame is what is kept of a plan that waits for an outcome, and an asking what is kept of one that waits for an
/// answer. Each step does what the plan says that the frame, the asking or the job means.
pub trait Language {
    /// What is evaluated.
    type Job: Drop;
    /// What is asked.
    type Want: Drop;
    /// What is answered.
    type Got: Drop;
    /// What a job comes to.
    type Outcome: Drop;
    /// What jobs read and change.
    type State: Drop;
    /// What waits for an outcome.
    type Frame: Drop;
    /// What waits for an answer.
    type Asking: Drop;

    ghost use Rattle.tt_evaluation.specs.Evaluation.{Meaning};
    ghost use Rattle.tt_evaluation.specs.Frames.{After, OnGot};

    ghost plan: { Meaning Self.Job Self.Want Self.Got Self.Outcome Self.State };

    ghost after: { After Self.Job Self.Want Self.Got Self.Outcome Self.State Self.Frame };

    ghost on_got: { OnGot Self.Job Self.Want Self.Got Self.Outcome Self.State Self.Asking };

    /// Begins a job.
    ///
    /// `NoMemory` if memory is refused.
    fn begin(
        alloc: Global,
        job: Self::Job,
        state: &mut Self::State,
    ) -> Result<Move<Self::Job, Self::Want, Self::Outcome, Self::Frame, Self::Asking>, NoMemory>
        ensures begun { IfOk result (λ move. plan job state.old ≡ plan_of after on_got move state.new) };

    /// Goes on with the outcome of the job that was called.
    ///
    /// `NoMemory` if memory is refused.
    fn go_on(
        alloc: Global,
        frame: Self::Frame,
        outcome: Self::Outcome,
        state: &mut Self::State,
    ) -> Result<Move<Self::Job, Self::Want, Self::Outcome, Self::Frame, Self::Asking>, NoMemory>
        ensures gone_on { IfOk result (λ move. after frame outcome state.old ≡ plan_of after on_got move state.new) };

    /// Goes on with the answer to what was asked.
    ///
    /// `NoMemory` if memory is refused.
    fn take(
        alloc: Global,
        asking: Self::Asking,
        got: Self::Got,
        state: &mut Self::State,
    ) -> Result<Move<Self::Job, Self::Want, Self::Outcome, Self::Frame, Self::Asking>, NoMemory>
        ensures taken { IfOk result (λ move. on_got asking got state.old ≡ plan_of after on_got move state.new) };
}
