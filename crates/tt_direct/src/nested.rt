//! Jobs evaluated in place, within one another: scripts, expressions and loops, and all else by its moves (Tcl(n),
//! expr(n), while(n), for(n)).
//!
//! What is evaluated within something else is evaluated by recursion, `depth` deep at most: below that a job is a move.
//! If a job goes no further here, each level around it leaves its frame on the stack, below what is there already.
ghost use Rattle.std.specs.Prelude.{IfOk, None, [], drop};
ghost use Rattle.std.specs.Arc.{arc_value};
ghost use Rattle.tt_code.specs.Running.{needs};
ghost use Rattle.tt_direct.specs.inside.Coming.{CameOn, MovedOn};
ghost use Rattle.tt_direct.specs.inside.Commands.{DoneOn, begun_command};
ghost use Rattle.tt_direct.specs.inside.Loops.{TurnedOn, loop_of};
ghost use Rattle.tt_evaluation.specs.Frames.{plan_of};
ghost use Rattle.tt_evaluation.specs.Plans.{Calls, Goes};
ghost use Rattle.tt_frames.specs.Control.{clauses};
ghost use Rattle.tt_frames.specs.Expressions.{needs_then};
ghost use Rattle.tt_frames.specs.Frames.{after, command_ended, command_needs, on_got};
ghost use Rattle.tt_frames.specs.Loops.{bodily, following, looping, turning};
ghost use Rattle.tt_frames.specs.Programs.{steps_of};
ghost use Rattle.tt_frames.specs.Scripts.{command_of_words, commands};
ghost use Rattle.tt_frames.specs.Tcl.{plan};

use crate::came::Came;
use crate::choices::{Clause, clauses_of, next_clause};
use crate::commands::{AfterWords, Done, Stop, end, one, run_words, spend, stopped};
use crate::jobs::Next;
use crate::leaving::leave;
use crate::loops::{Turned, after_body, after_next, after_test, begin, is_true, pass_over};
use crate::moves::{Moved, ask, begin_round, come_back, is_round};
use crate::needs::{Met, meet};
use crate::parts::Parts;
use crate::scripts::{Opening, first, pass};
use std::alloc::Global;
use std::sync::Arc;
use tt_code::Running;
use tt_evaluation::Language;
use tt_frames::{
    CommandFrame, Frame, Job, Made, Program, Purpose, Rest, Stack, Tcl, ending_for, first_of,
};
use tt_kept::Kept;
use tt_outcomes::Ending;
use tt_text::NoMemory;
use tt_value::{Value, Values};

/// Evaluates a job, with so many levels of other jobs within it.
///
/// `NoMemory` if memory is refused, or all steps are taken.
#[cycle(nested)]
pub(crate) fn evaluate(
    alloc: Global,
    kept: &mut Kept,
    stack: &mut Stack,
    depth: u8,
    job: Job,
) -> Result<Came, NoMemory>
    ensures runs { IfOk result (λ came. CameOn came stack.new kept.new (plan job stack.old.state) stack.old kept.old) }
{
    match job {
        Job::Script(text) => {
            let program = stack.state.script(text)?;
            let came = script(alloc, kept, stack, depth, program)?;
            Ok(came)
        }
        Job::Expression(purpose, text) => match stack.state.expression(text)? {
            Made::Bad(message) => {
                let ending = Ending::failed(alloc, message)?;
                let came = Came::ended(alloc, ending)?;
                Ok(came)
            }
            Made::Code(code) => {
                let code = Running::new(alloc, code);
                let came = compute(alloc, kept, stack, depth, purpose, code)?;
                Ok(came)
            }
        },
        Job::Loop(whole) => match Parts::of(&mut stack.state, &whole)? {
            Some(parts) => {
                let came = turns(alloc, kept, stack, depth, &parts)?;
                Ok(came)
            }
            None => {
                let next = Tcl::begin(alloc, Job::Loop(whole), &mut stack.state)?;
                let came = drive(alloc, kept, stack, depth, next)?;
                Ok(came)
            }
        },
        Job::Own(words) => match clauses_of(alloc, words.as_slice())? {
            Some(left) => {
                let came = choose(alloc, kept, stack, depth, left)?;
                Ok(came)
            }
            None => {
                let next = Tcl::begin(alloc, Job::Own(words), &mut stack.state)?;
                let came = drive(alloc, kept, stack, depth, next)?;
                Ok(came)
            }
        },
        job => {
            let next = Tcl::begin(alloc, job, &mut stack.state)?;
            let came = drive(alloc, kept, stack, depth, next)?;
            Ok(came)
        }
    }
}

/// Goes over into a job, for a step, and evaluates it one level further in; if no level is left, that is a move.
///
/// `NoMemory` if memory is refused, or all steps are taken.
#[cycle(nested)]
fn go_over(
    alloc: Global,
    kept: &mut Kept,
    stack: &mut Stack,
    depth: u8,
    job: Job,
) -> Result<Came, NoMemory>
    ensures { IfOk result (λ came. CameOn came stack.new kept.new (Goes job stack.old.state) stack.old kept.old) }
{
    if depth == 0 {
        let came = Came::moves(alloc, Next::Goto(job))?;
        return Ok(came);
    }
    stack.steps = stack.steps.checked_sub(1).ok_or(NoMemory)?;
    let came = evaluate(alloc, kept, stack, depth - 1, job)?;
    Ok(came)
}

/// Evaluates a script from its first command on.
///
/// `NoMemory` if memory is refused, or all steps are taken.
#[cycle(nested)]
fn script(
    alloc: Global,
    kept: &mut Kept,
    stack: &mut Stack,
    depth: u8,
    program: Arc<Program>,
) -> Result<Came, NoMemory>
    ensures { IfOk result (λ came. CameOn came stack.new kept.new
        (commands (arc_value program) (drop 0 (steps_of (arc_value program))) [] stack.old.state)
        stack.old kept.old) }
{
    match first(alloc, program)? {
        Opening::Over(came) => Ok(came),
        Opening::Does(frame) => {
            let came = run(alloc, kept, stack, depth, frame)?;
            Ok(came)
        }
    }
}

/// Evaluates a script from the command of the frame on.
///
/// `NoMemory` if memory is refused, or all steps are taken.
#[cycle(nested)]
pub(crate) fn run(
    alloc: Global,
    kept: &mut Kept,
    stack: &mut Stack,
    depth: u8,
    frame: CommandFrame,
) -> Result<Came, NoMemory>
    ensures runs { IfOk result (λ came. CameOn came stack.new kept.new
        (begun_command frame stack.old.state) stack.old kept.old) }
{
    let mut frame = frame;
    'commands: for _ in 0..u64::MAX {
        let place = stack.calls.len();
        match command(alloc, kept, stack, depth, &mut frame)? {
            Done::Stops(stop) => {
                let came = stopped(alloc, stack, place, frame, stop)?;
                return Ok(came);
            }
            Done::Fine(value) => {
                if let Some(came) = pass(alloc, &mut frame, value)? {
                    return Ok(came);
                }
            }
        }
    }
    Err(NoMemory)
}

// A unit is spent for the command of the frame, and it is evaluated.
#[cycle(nested)]
fn command(
    alloc: Global,
    kept: &mut Kept,
    stack: &mut Stack,
    depth: u8,
    frame: &mut CommandFrame,
) -> Result<Done, NoMemory>
    ensures { IfOk result (λ done. DoneOn done frame.new stack.new kept.new
        (begun_command frame.old stack.old.state) stack.old kept.old) }
{
    match spend(alloc, &mut stack.state, frame)? {
        Some(done) => Ok(done),
        None => {
            let done = words(alloc, kept, stack, depth, frame)?;
            Ok(done)
        }
    }
}

/// The command of the frame goes on to its words, and they are run.
///
/// `NoMemory` if memory is refused, or all steps are taken.
#[cycle(nested)]
pub(crate) fn words(
    alloc: Global,
    kept: &mut Kept,
    stack: &mut Stack,
    depth: u8,
    frame: &mut CommandFrame,
) -> Result<Done, NoMemory>
    ensures runs { IfOk result (λ done. DoneOn done frame.new stack.new kept.new
        (command_needs frame.old stack.old.state) stack.old kept.old) }
{
    'words: for _ in 0..u64::MAX {
        match meet(alloc, kept, &mut frame.running)? {
            Met::Value(word) => {
                let words = one(alloc, word)?;
                let done = act(alloc, kept, stack, depth, frame, words)?;
                return Ok(done);
            }
            Met::Values(words) => {
                let done = act(alloc, kept, stack, depth, frame, Values::from(words))?;
                return Ok(done);
            }
            Met::Quit(ending) => {
                let done = end(frame, ending)?;
                return Ok(done);
            }
            Met::Script(text) => {
                match go_over(alloc, kept, stack, depth, Job::Script(text))? {
                    Came::Fine(value) => frame.running.give(value)?,
                    Came::Ends(ending) => {
                        let done = end(frame, ending.into_inner())?;
                        return Ok(done);
                    }
                    Came::Moves(next) => return Ok(Done::Stops(Stop::Needs(next))),
                }
            }
        }
    }
    Err(NoMemory)
}

// What the words of the command say is done.
#[cycle(nested)]
fn act(
    alloc: Global,
    kept: &mut Kept,
    stack: &mut Stack,
    depth: u8,
    frame: &CommandFrame,
    words: Values,
) -> Result<Done, NoMemory>
    ensures { IfOk result (λ done. DoneOn done frame.now stack.new kept.new
        (command_of_words (command_ended frame.now) words stack.old.state) stack.old kept.old) }
{
    match run_words(alloc, kept, words)? {
        AfterWords::Ended(ending) => {
            let done = end(frame, ending)?;
            Ok(done)
        }
        AfterWords::Calls(job) => {
            let done = call(alloc, kept, stack, depth, frame, job)?;
            Ok(done)
        }
    }
}

/// The command of the frame calls a job.
///
/// `NoMemory` if memory is refused, or all steps are taken.
#[cycle(nested)]
pub(crate) fn call(
    alloc: Global,
    kept: &mut Kept,
    stack: &mut Stack,
    depth: u8,
    frame: &CommandFrame,
    job: Job,
) -> Result<Done, NoMemory>
    ensures calls { IfOk result (λ done. DoneOn done frame.now stack.new kept.new
        (Calls None job stack.old.state (command_ended frame.now)) stack.old kept.old) }
{
    match go_over(alloc, kept, stack, depth, job)? {
        Came::Fine(value) => Ok(Done::Fine(value)),
        Came::Ends(ending) => {
            let done = end(frame, ending.into_inner())?;
            Ok(done)
        }
        Came::Moves(next) => Ok(Done::Stops(Stop::Calls(next))),
    }
}

/// Evaluates an expression from where its code stands.
///
/// `NoMemory` if memory is refused, or all steps are taken.
#[cycle(nested)]
pub(crate) fn compute(
    alloc: Global,
    kept: &mut Kept,
    stack: &mut Stack,
    depth: u8,
    purpose: Purpose,
    code: Running,
) -> Result<Came, NoMemory>
    ensures runs { IfOk result (λ came. CameOn came stack.new kept.new
        (needs_then purpose (needs code) stack.old.state) stack.old kept.old) }
{
    let mut code = code;
    'needs: for _ in 0..u64::MAX {
        match meet(alloc, kept, &mut code)? {
            Met::Value(value) => {
                let ending = ending_for(alloc, purpose, value)?;
                let came = Came::ended(alloc, ending)?;
                return Ok(came);
            }
            Met::Values(values) => {
                let ending = ending_for(alloc, purpose, first_of(alloc, values))?;
                let came = Came::ended(alloc, ending)?;
                return Ok(came);
            }
            Met::Quit(ending) => {
                let came = Came::ended(alloc, ending)?;
                return Ok(came);
            }
            Met::Script(text) => {
                let place = stack.calls.len();
                match go_over(alloc, kept, stack, depth, Job::Script(text))? {
                    Came::Fine(value) => code.give(value)?,
                    Came::Ends(ending) => return Ok(Came::Ends(ending)),
                    Came::Moves(next) => {
                        let came = leave(stack, place, Frame::Expression(purpose, code), next)?;
                        return Ok(came);
                    }
                }
            }
        }
    }
    Err(NoMemory)
}

/// Evaluates a loop, up to its end or to where it goes no further.
///
/// `NoMemory` if memory is refused, or all steps are taken.
#[cycle(nested)]
fn turns(
    alloc: Global,
    kept: &mut Kept,
    stack: &mut Stack,
    depth: u8,
    parts: &Parts,
) -> Result<Came, NoMemory>
    ensures { IfOk result (λ came. CameOn came stack.new kept.new
        (looping (loop_of parts.now) stack.old.state) stack.old kept.old) }
{
    'turns: for _ in 0..u64::MAX {
        match turn(alloc, kept, stack, depth, parts)? {
            Turned::Goes => {}
            Turned::Stops(came) => return Ok(came),
        }
    }
    Err(NoMemory)
}

// One turn.
#[cycle(nested)]
fn turn(
    alloc: Global,
    kept: &mut Kept,
    stack: &mut Stack,
    depth: u8,
    parts: &Parts,
) -> Result<Turned, NoMemory>
    ensures { IfOk result (λ turned. TurnedOn turned (looping (loop_of parts.now)) stack.new kept.new
        (looping (loop_of parts.now) stack.old.state) stack.old kept.old) }
{
    match begin(alloc, stack, parts)? {
        Turned::Goes => {}
        Turned::Stops(came) => return Ok(Turned::Stops(came)),
    }
    match test(alloc, kept, stack, depth, parts)? {
        Turned::Goes => {}
        Turned::Stops(came) => return Ok(Turned::Stops(came)),
    }
    match run_body(alloc, kept, stack, depth, parts)? {
        Turned::Goes => {}
        Turned::Stops(came) => return Ok(Turned::Stops(came)),
    }
    let turned = follow(alloc, kept, stack, depth, parts)?;
    Ok(turned)
}

// The test of a turn.
#[cycle(nested)]
fn test(
    alloc: Global,
    kept: &mut Kept,
    stack: &mut Stack,
    depth: u8,
    parts: &Parts,
) -> Result<Turned, NoMemory>
    ensures { IfOk result (λ turned. TurnedOn turned (bodily (loop_of parts.now)) stack.new kept.new
        (turning (loop_of parts.now) stack.old.state) stack.old kept.old) }
{
    stack.steps = stack.steps.checked_sub(1).ok_or(NoMemory)?;
    let place = stack.calls.len();
    let code = Running::new(alloc, parts.test.code()?);
    let came = compute(alloc, kept, stack, depth, Purpose::Condition, code)?;
    let turned = after_test(alloc, stack, place, parts, came)?;
    Ok(turned)
}

// The body of a turn.
#[cycle(nested)]
fn run_body(
    alloc: Global,
    kept: &mut Kept,
    stack: &mut Stack,
    depth: u8,
    parts: &Parts,
) -> Result<Turned, NoMemory>
    ensures { IfOk result (λ turned. TurnedOn turned (following (loop_of parts.now)) stack.new kept.new
        (bodily (loop_of parts.now) stack.old.state) stack.old kept.old) }
{
    stack.steps = stack.steps.checked_sub(1).ok_or(NoMemory)?;
    let place = stack.calls.len();
    let came = script(alloc, kept, stack, depth, parts.body.clone()?)?;
    let turned = after_body(alloc, stack, place, parts, came)?;
    Ok(turned)
}

// What follows the body, up to the next turn: the script after it, if there is one (for(n)).
#[cycle(nested)]
fn follow(
    alloc: Global,
    kept: &mut Kept,
    stack: &mut Stack,
    depth: u8,
    parts: &Parts,
) -> Result<Turned, NoMemory>
    ensures { IfOk result (λ turned. TurnedOn turned (looping (loop_of parts.now)) stack.new kept.new
        (following (loop_of parts.now) stack.old.state) stack.old kept.old) }
{
    match &parts.next {
        None => {
            let turned = pass_over(stack, Turned::Goes)?;
            Ok(turned)
        }
        Some(program) => {
            stack.steps = stack.steps.checked_sub(1).ok_or(NoMemory)?;
            let place = stack.calls.len();
            let came = script(alloc, kept, stack, depth, program.clone()?)?;
            let after = after_next(alloc, stack, place, parts, came)?;
            let turned = pass_over(stack, after)?;
            Ok(turned)
        }
    }
}

// The tests of a choice are evaluated in their order, and the first body whose test holds (if(n)).
#[cycle(nested)]
fn choose(
    alloc: Global,
    kept: &mut Kept,
    stack: &mut Stack,
    depth: u8,
    left: Rest,
) -> Result<Came, NoMemory>
    ensures { IfOk result (λ came. CameOn came stack.new kept.new
        (clauses left stack.old.state) stack.old kept.old) }
{
    let mut left = left;
    'clauses: for _ in 0..u64::MAX {
        match next_clause(&mut left)? {
            Clause::None => return Ok(Came::Fine(Value::new(alloc))),
            Clause::Otherwise(body) => {
                let came = go_over(alloc, kept, stack, depth, Job::Script(body))?;
                return Ok(came);
            }
            Clause::Tests(test, body) => {
                let place = stack.calls.len();
                let job = Job::Expression(Purpose::Condition, test);
                match go_over(alloc, kept, stack, depth, job)? {
                    Came::Fine(value) => {
                        let holds = is_true(alloc, &value)?;
                        if holds {
                            let came = go_over(alloc, kept, stack, depth, Job::Script(body))?;
                            return Ok(came);
                        }
                    }
                    Came::Ends(ending) => return Ok(Came::Ends(ending)),
                    Came::Moves(next) => {
                        let came = leave(stack, place, Frame::Clause(body, left), next)?;
                        return Ok(came);
                    }
                }
            }
        }
    }
    Err(NoMemory)
}

// Goes on from a move.
#[cycle(nested)]
fn drive(
    alloc: Global,
    kept: &mut Kept,
    stack: &mut Stack,
    depth: u8,
    first: Next,
) -> Result<Came, NoMemory>
    ensures { IfOk result (λ came. CameOn came stack.new kept.new
        (plan_of after on_got first stack.old.state) stack.old kept.old) }
{
    let mut step = first;
    'moves: for _ in 0..u64::MAX {
        match advance(alloc, kept, stack, depth, step)? {
            Moved::On(next) => step = next,
            Moved::Over(came) => return Ok(came),
        }
    }
    Err(NoMemory)
}

// One move.
#[cycle(nested)]
fn advance(
    alloc: Global,
    kept: &mut Kept,
    stack: &mut Stack,
    depth: u8,
    step: Next,
) -> Result<Moved, NoMemory>
    ensures { IfOk result (λ moved. MovedOn moved stack.new kept.new
        (plan_of after on_got step stack.old.state) stack.old kept.old) }
{
    match step {
        Next::Done(ending) => {
            let came = Came::ended(alloc, ending)?;
            Ok(Moved::Over(came))
        }
        Next::Ask(want, asking) => {
            let moved = ask(alloc, kept, stack, want, asking)?;
            Ok(moved)
        }
        Next::Call(None, job, frame) => {
            let place = stack.calls.len();
            let came = go_over(alloc, kept, stack, depth, job)?;
            let moved = come_back(alloc, stack, place, frame, came)?;
            Ok(moved)
        }
        Next::Goto(job) => {
            if is_round(&job) {
                let next = begin_round(alloc, stack, job)?;
                return Ok(Moved::On(next));
            }
            let came = go_over(alloc, kept, stack, depth, job)?;
            Ok(Moved::Over(came))
        }
        step => {
            let came = Came::moves(alloc, step)?;
            Ok(Moved::Over(came))
        }
    }
}
