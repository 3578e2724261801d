ghost use Rattle.std.specs.Prelude.{◌≡◌, ◌+◌, List, IfOk, IsTrue};
ghost use Rattle.tt_evaluation.specs.Evaluation.{eval};
ghost use Rattle.tt_evaluation.specs.Frames.{after_answer, from_halt};
ghost use Rattle.tt_evaluation.specs.inside.Moves.{Falls, from_move, from_next, from_standing};
ghost use Rattle.tt_evaluation.specs.Frames.{is_waiting, plan_of, wants};
ghost use Rattle.tt_evaluation.specs.inside.Moves.{weight};
ghost use Rattle.tt_evaluation.specs.Plans.{follow};
ghost use Rattle.tt_evaluation.specs.declared.language.Move.TheVariants.{Done};

use crate::{Language, Move};
use std::alloc::Global;
use std::mem;
use tt_text::NoMemory;

/// How many steps a stack has, for the calls of jobs and the goings over into jobs. They make each run end; at one in a
/// nanosecond they last for 146 years.
pub const STEPS: u64 = 1 << 62;

/// A call that waits for its outcome.
#[derive(Debug, Drop)]
pub struct Pending<Frame> {
    /// What goes on with the outcome.
    pub frame: Frame,
    /// The post that is served meanwhile, if it is one.
    pub serves: Option<u64>,
}

// Where moves come to.
#[derive(Debug, Drop)]
pub enum Standing<Want, Outcome, Asking> {
    // At what is asked.
    Asks(Want, Asking),
    // At the end.
    Ends(Outcome),
}

// What comes next.
#[derive(Debug, Drop)]
pub enum Next<Job, Want, Outcome, Frame, Asking> {
    Moves(Move<Job, Want, Outcome, Frame, Asking>),
    Stands(Standing<Want, Outcome, Asking>),
}

/// Where a stack halts.
#[derive(Debug, Drop)]
pub enum Halt<Want, Outcome> {
    /// It waits for an answer to this.
    Wants(Want),
    /// All is evaluated, to this outcome.
    Ended(Outcome),
}

/// What is left of the plans that are begun: the calls that wait for their outcomes, the newest of them last, and what
/// waits for an answer. A contract says of it what it comes to after further answers.
#[derive(Debug, Drop)]
pub struct Stack<State, Frame, Asking> {
    /// What the evaluation has counted and keeps.
    pub state: State,
    /// How many steps remain.
    pub steps: u64,
    /// The calls that wait, the newest of them last.
    pub calls: Vec<Pending<Frame>>,
    /// What goes on with the answer, if one is waited for.
    pub asking: Option<Asking>,
}

/// A stack that has this job to do, from this state on, and where it halts first.
///
/// `NoMemory` if memory is refused, or all steps are taken.
pub fn begin<L: Language>(
    alloc: Global,
    job: L::Job,
    state: L::State,
) -> Result<
    (
        Stack<L::State, L::Frame, L::Asking>,
        Halt<L::Want, L::Outcome>,
    ),
    NoMemory,
>
    ensures begun { IfOk result (λ begun. (answers : List L.Got)
        → from_halt L.plan L.after L.on_got begun.1 begun.0 answers
        ≡ eval L.plan job state STEPS answers) }
    ensures waiting { IfOk result (λ begun. wants begun.1 ≡ is_waiting begun.0) }
{
    let mut stack = Stack {
        state,
        steps: STEPS,
        calls: Vec::new(alloc),
        asking: None,
    };
    let first = L::begin(alloc, job, &mut stack.state)?;
    let halt = run::<L>(alloc, &mut stack, first)?;
    Ok((stack, halt))
}

/// Goes on with the answer to what the stack wants, and answers where it halts next.
///
/// `NoMemory` if memory is refused, or all steps are taken; then the stack is only fit to be dropped.
pub fn turn<L: Language>(
    alloc: Global,
    stack: &mut Stack<L::State, L::Frame, L::Asking>,
    got: L::Got,
) -> Result<Halt<L::Want, L::Outcome>, NoMemory>
    requires asked { IsTrue (is_waiting stack.old) }
    ensures turned { IfOk result (λ halt. (answers : List L.Got)
        → from_halt L.plan L.after L.on_got halt stack.new answers
        ≡ after_answer L.plan L.after L.on_got stack.old got answers) }
    ensures waiting { IfOk result (λ halt. wants halt ≡ is_waiting stack.new) }
{
    match mem::replace(&mut stack.asking, None) {
        Some(asking) => {
            let next = L::take(alloc, asking, got, &mut stack.state)?;
            let halt = run::<L>(alloc, stack, next)?;
            Ok(halt)
        }
        None => Err(NoMemory),
    }
}

/// Whether the stack waits for an answer. It takes no memory.
pub fn is_waiting<State, Frame, Asking>(stack: &Stack<State, Frame, Asking>) -> bool
    ensures waiting { result ≡ is_waiting stack.now }
{
    stack.asking.is_some()
}

// From a move to where the stack halts next.
fn run<L: Language>(
    alloc: Global,
    stack: &mut Stack<L::State, L::Frame, L::Asking>,
    first: Move<L::Job, L::Want, L::Outcome, L::Frame, L::Asking>,
) -> Result<Halt<L::Want, L::Outcome>, NoMemory>
    ensures same { IfOk result (λ halt. (answers : List L.Got)
        → from_halt L.plan L.after L.on_got halt stack.new answers
        ≡ from_move L.plan L.after L.on_got first stack.old.calls.items stack.old.state stack.old.steps answers) }
    ensures waiting { IfOk result (λ halt. wants halt ≡ is_waiting stack.new) }
{
    let standing = stand::<L>(
        alloc,
        &mut stack.calls,
        &mut stack.state,
        &mut stack.steps,
        first,
    )?;
    match standing {
        Standing::Asks(want, asking) => {
            stack.asking = Some(asking);
            Ok(Halt::Wants(want))
        }
        Standing::Ends(outcome) => {
            stack.asking = None;
            Ok(Halt::Ended(outcome))
        }
    }
}

// Moves until nothing moves.
fn stand<L: Language>(
    alloc: Global,
    calls: &mut Vec<Pending<L::Frame>>,
    state: &mut L::State,
    steps: &mut u64,
    first: Move<L::Job, L::Want, L::Outcome, L::Frame, L::Asking>,
) -> Result<Standing<L::Want, L::Outcome, L::Asking>, NoMemory>
    ensures { IfOk result (λ standing. (answers : List L.Got)
        → from_standing L.plan L.after L.on_got standing calls.new.items state.new steps.new answers
        ≡ from_move L.plan L.after L.on_got first calls.old.items state.old steps.old answers) }
{
    let mut step = first;
    'moves: loop {
        match advance::<L>(alloc, calls, state, steps, step)? {
            Next::Moves(next) => step = next,
            Next::Stands(standing) => return Ok(standing),
        }
    }
}

// One move.
fn advance<L: Language>(
    alloc: Global,
    calls: &mut Vec<Pending<L::Frame>>,
    state: &mut L::State,
    steps: &mut u64,
    step: Move<L::Job, L::Want, L::Outcome, L::Frame, L::Asking>,
) -> Result<Next<L::Job, L::Want, L::Outcome, L::Frame, L::Asking>, NoMemory>
    ensures same { IfOk result (λ next. (answers : List L.Got)
        → from_next L.plan L.after L.on_got next calls.new.items state.new steps.new answers
        ≡ from_move L.plan L.after L.on_got step calls.old.items state.old steps.old answers) }
    ensures falls { IfOk result (λ next.
        Falls next calls.new.items steps.new (weight step calls.old.items steps.old)) }
{
    match step {
        Move::Done(outcome) => come_back::<L>(alloc, calls, state, steps, outcome),
        Move::Ask(want, asking) => Ok(Next::Stands(Standing::Asks(want, asking))),
        Move::Call(serves, job, frame) => {
            let next = go_over::<L>(alloc, state, steps, job)?;
            calls.push(Pending { frame, serves })?;
            Ok(Next::Moves(next))
        }
        Move::Goto(job) => {
            let next = go_over::<L>(alloc, state, steps, job)?;
            Ok(Next::Moves(next))
        }
    }
}

// The newest call goes on with its outcome.
fn come_back<L: Language>(
    alloc: Global,
    calls: &mut Vec<Pending<L::Frame>>,
    state: &mut L::State,
    steps: &mut u64,
    outcome: L::Outcome,
) -> Result<Next<L::Job, L::Want, L::Outcome, L::Frame, L::Asking>, NoMemory>
    ensures same { IfOk result (λ next. (answers : List L.Got)
        → from_next L.plan L.after L.on_got next calls.new.items state.new steps.new answers
        ≡ from_move L.plan L.after L.on_got (Done outcome) calls.old.items state.old steps.old answers) }
    ensures falls { IfOk result (λ next. Falls next calls.new.items steps.new
        (weight {Job = L.Job} {Want = L.Want} {Asking = L.Asking} (Done outcome) calls.old.items steps.old)) }
{
    match calls.pop() {
        None => Ok(Next::Stands(Standing::Ends(outcome))),
        Some(Pending { frame, .. }) => {
            let next = L::go_on(alloc, frame, outcome, state)?;
            Ok(Next::Moves(next))
        }
    }
}

// A job is begun, for one step.
fn go_over<L: Language>(
    alloc: Global,
    state: &mut L::State,
    steps: &mut u64,
    job: L::Job,
) -> Result<Move<L::Job, L::Want, L::Outcome, L::Frame, L::Asking>, NoMemory>
    ensures same { IfOk result (λ move. (answers : List L.Got)
        → follow (eval L.plan) (plan_of L.after L.on_got move state.new) steps.new answers
        ≡ eval L.plan job state.old steps.new answers) }
    ensures spent { IfOk result (λ move. steps.old ≡ steps.new + 1) }
{
    *steps = steps.checked_sub(1).ok_or(NoMemory)?;
    let next = L::begin(alloc, job, state)?;
    Ok(next)
}
