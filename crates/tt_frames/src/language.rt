ghost use Rattle.std.specs.Prelude.{◌≡◌, IfOk};
ghost use Rattle.tt_outcomes.specs.declared.ending.Ending.TheVariants as endings;
ghost use Rattle.tt_frames.specs.Frames.{after, on_got};
ghost use Rattle.tt_frames.specs.Vocabulary.{ending_of, on_fine, same_ending};
ghost use Rattle.tt_frames.specs.declared.state.Counts.{Counts};
ghost use Rattle.tt_evaluation.specs.Frames.{plan_of};

use crate::calls::{after_sent, take_reply};
use crate::commands::{advance_command, begin_script, end_command, give_command, run_command};
use crate::control::{after_caught, after_clause, begin_own, store_caught};
use crate::events::{after_seen, after_taken, ask_event, begin_round};
use crate::expressions::{begin_expression, give_expression};
use crate::held::{after_held, begin_held};
use crate::job::{Asking, Frame, Job};
use crate::loops::{
    after_body, after_next, after_start, after_test, begin_loop, begin_turn, go_on_assigning,
};
use crate::nesting::{begin_global, begin_nested, leave};
use crate::serving::{
    after_error, after_handed, after_left, after_script, after_set, begin_event, set_global,
};
use crate::starts::{begin_start, finish, report_error};
use crate::state::State;
use crate::workers::{after_worker, begin_work, take_got};
use std::alloc::Global;
use tt_evaluation::{Language, Move};
use tt_outcomes::{Ending, Got, Want};
use tt_text::NoMemory;
use tt_value::Value;

/// What is done next.
pub(crate) type Next = Move<Job, Want, Ending, Frame, Asking>;

/// The language.
pub struct Tcl;

impl Language for Tcl {
    type Job = Job;

    type Want = Want;

    type Got = Got;

    type Outcome = Ending;

    type State = State;

    type Frame = Frame;

    type Asking = Asking;

    ghost use Rattle.tt_outcomes.specs.declared.ending.Ending.TheVariants as endings;
    ghost use Rattle.tt_frames.specs.Frames.{after, on_got};
    ghost use Rattle.tt_frames.specs.Tcl.{plan};

    ghost plan = { plan };

    ghost after = { after };

    ghost on_got = { on_got };

    fn begin(
        alloc: Global,
        job: Job,
        state: &mut State,
    ) -> Result<Move<Job, Want, Ending, Frame, Asking>, NoMemory> {
        let next = match job {
            Job::Start(start) => begin_start(alloc, start)?,
            Job::Script(text) => begin_script(alloc, text, state)?,
            Job::Expression(purpose, text) => begin_expression(alloc, purpose, text, state)?,
            Job::Own(words) => begin_own(alloc, words, state)?,
            Job::Nested(body, text) => begin_nested(alloc, body, text, state)?,
            Job::Global(text) => begin_global(text),
            Job::Loop(next) => begin_loop(alloc, next, state)?,
            Job::Turn(turn) => begin_turn(alloc, turn)?,
            Job::Serve(goal) => begin_round(alloc, goal, state)?,
            Job::Take(goal) => ask_event(alloc, goal)?,
            Job::Event(event) => begin_event(alloc, event, state),
            Job::Held(hold, text) => begin_held(alloc, hold, text, state)?,
            Job::Work(work) => begin_work(alloc, work)?,
        };
        Ok(next)
    }

    fn go_on(
        alloc: Global,
        frame: Frame,
        outcome: Ending,
        state: &mut State,
    ) -> Result<Move<Job, Want, Ending, Frame, Asking>, NoMemory> {
        let next = continued(alloc, frame, outcome, state)?;
        Ok(next)
    }

    fn take(
        alloc: Global,
        asking: Asking,
        got: Got,
        state: &mut State,
    ) -> Result<Move<Job, Want, Ending, Frame, Asking>, NoMemory> {
        let next = match asking {
            Asking::Wanted(frame) => {
                let ending = ending_of(alloc, got)?;
                continued(alloc, frame, ending, state)?
            }
            Asking::Runs(frame) => run_command(alloc, frame, got, state)?,
            Asking::Paused(frame) => advance_command(alloc, frame)?,
            Asking::Begins(job) => Move::Goto(job),
            Asking::Ends(ending) => Move::Done(ending),
            Asking::Caught(variable, message) => store_caught(alloc, variable, message)?,
            Asking::Replied(awaits) => take_reply(alloc, awaits, got)?,
            Asking::Reported(trace, ending) => report_error(alloc, trace, ending, state.counts.me)?,
            Asking::Seen => {
                let ending = ending_of(alloc, got)?;
                after_seen(alloc, ending, state)?
            }
            Asking::Taken(goal) => after_taken(alloc, goal, got)?,
            Asking::Sets(name, value) => set_global(alloc, name, value)?,
            Asking::Left(ending) => after_left(alloc, ending)?,
            Asking::Told {
                n,
                answer,
                plain,
                failure,
            } => { after_error(alloc, n, answer, plain, failure)? }
            Asking::Handed => after_handed(alloc, &got, state),
            Asking::Works(asking) => take_got(alloc, asking, &got)?,
        };
        Ok(next)
    }
}

// What was got, as an ending.
fn ending_of(alloc: Global, got: Got) -> Result<Ending, NoMemory>
    ensures { IfOk result (λ ending. ending ≡ ending_of got) }
{
    match got {
        Got::Value(outcome) => {
            let ending = Ending::of_value(alloc, outcome)?;
            Ok(ending)
        }
        _ => Ok(Ending::nothing(alloc)),
    }
}

// A frame goes on.
fn continued(
    alloc: Global,
    frame: Frame,
    ending: Ending,
    state: &mut State,
) -> Result<Next, NoMemory>
    ensures { IfOk result (λ move. after frame ending state.old ≡ plan_of after on_got move state.new) }
{
    match frame {
        Frame::Needs(command) => give_command(alloc, command, ending, state),
        Frame::Does(command) => end_command(alloc, command, ending, state),
        Frame::Expression(purpose, running) => give_expression(alloc, purpose, running, ending),
        Frame::Clause(body, left) => after_clause(alloc, body, left, ending),
        Frame::Test(turn) => after_test(alloc, turn, ending),
        Frame::LoopBody(turn) => after_body(alloc, turn, ending),
        Frame::LoopNext(turn) => Ok(after_next(alloc, turn, ending)),
        Frame::LoopStart(turn) => Ok(after_start(turn, ending)),
        Frame::Assigns(left, turn) => go_on_assigning(alloc, left, turn, ending),
        Frame::Catches(variable) => after_caught(alloc, variable, ending),
        Frame::Leaves(body) => leave(alloc, body, ending, state),
        Frame::Sends(variable) => after_sent(alloc, variable, ending),
        Frame::Stores(answer) => Ok(answered(answer, ending)),
        Frame::Reports => finish(alloc, ending),
        Frame::Rounds(goal) => Ok(Next::Goto(Job::Serve(goal))),
        Frame::Serves { n, answer, plain } => after_script(alloc, n, answer, plain, ending),
        Frame::Sets => Ok(after_set(ending)),
        Frame::Held(hold) => after_held(alloc, hold, ending, state),
        Frame::Works(frame) => after_worker(alloc, frame, ending),
    }
}

// A variable was set.
fn answered(answer: Value, ending: Ending) -> Next
    ensures { (state : Counts)
        → on_fine (λ old. same_ending (endings.Fine answer)) same_ending ending state
        ≡ plan_of after on_got result state }
{
    match ending {
        Ending::Fine(_) => Next::Done(Ending::Fine(answer)),
        ending => Next::Done(ending),
    }
}
