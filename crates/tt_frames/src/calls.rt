//! Commands that ask what the threads share, and what follows the replies.
ghost use Rattle.tt_text.specs.Characters.{characters};
ghost use Rattle.tt_evaluation.specs.declared.language.Move.TheVariants as moves;
ghost use Rattle.tt_frames.specs.declared.job.Asking.TheVariants as askings;
ghost use Rattle.tt_outcomes.specs.declared.want.Want.TheVariants as wants;
ghost use Rattle.std.specs.Prelude.{◌≡◌, IfOk, decimal, length};
ghost use Rattle.tt_commands.specs.Calls.{call_of};
ghost use Rattle.tt_frames.specs.Asking as table;
ghost use Rattle.tt_frames.specs.declared.job.Awaits.TheVariants as awaits;
ghost use Rattle.tt_frames.specs.Frames.{after, on_got};
ghost use Rattle.tt_frames.specs.declared.state.Counts.{Counts};
ghost use Rattle.tt_evaluation.specs.Frames.{plan_of};

use crate::events::begin_serving;
use crate::job::{Asking, Awaits, Frame, Hold, Job};
use crate::language::Next;
use crate::storing::store;
use itoa::Buffer;
use std::alloc::Global;
use tt_calls::{Boxed, ChanCall, LockCall, Outcome, Reply, Request, TsvCall};
use tt_commands::{Call, Here, Then, read_call};
use tt_outcomes::{Ending, Got, Want, code_number};
use tt_text::{NoMemory, Text, char_count};
use tt_value::{Value, Values};

/// A command begins that asks, or whose name is unknown.
pub(crate) fn begin_call(alloc: Global, words: &Values, me: u32) -> Result<Next, NoMemory>
    ensures { IfOk result (λ move. (state : Counts)
        → table.call_then (call_of words.now me) words.now state ≡ plan_of after on_got move state) }
{
    let words = words.to_texts(alloc)?;
    match read_call(alloc, words.as_slice(), me)? {
        Call::Other => Ok(Next::Done(unknown(alloc, words.as_slice())?)),
        Call::Bad(message) => Ok(Next::Done(Ending::failed(alloc, message)?)),
        Call::Here(Here::Local(text)) => Ok(Next::Done(Ending::Fine(Value::from_text(text)))),
        Call::Here(Here::Direct(script, variable)) => Ok(Next::Call(
            None,
            Job::Global(script),
            Frame::Sends(variable),
        )),
        Call::Ask { request, then } => {
            let next = begin_request(alloc, request, then)?;
            Ok(next)
        }
    }
}

// A command begins that asks.
fn begin_request(alloc: Global, request: Boxed<Request>, then: Then) -> Result<Next, NoMemory>
    ensures { IfOk result (λ move. (state : Counts)
        → table.request_then request then state ≡ plan_of after on_got move state) }
{
    match then {
        Then::Serve(goal) => {
            let next = begin_serving(alloc, request, goal)?;
            Ok(next)
        }
        then => {
            let awaits = awaits_of(request.get(), then)?;
            Ok(Next::Ask(Want::Ask { request }, Asking::Replied(awaits)))
        }
    }
}

// A name that no command has.
fn unknown(alloc: Global, words: &[Text]) -> Result<Ending, NoMemory>
    ensures { IfOk result (λ ending. ending ≡ table.unknown words.now) }
{
    match words {
        [] => Ok(Ending::nothing(alloc)),
        [name, ..] => {
            let mut message = Text::from_bytes(alloc, b"invalid command name \"")?;
            message.push_bytes(name.as_bytes())?;
            message.push_bytes(b"\"")?;
            let ending = Ending::failed(alloc, message)?;
            Ok(ending)
        }
    }
}

// What follows the first reply to a request.
fn awaits_of(request: &Request, then: Then) -> Result<Awaits, NoMemory>
    ensures { IfOk result (λ awaits. awaits ≡ table.awaits_of request.now then) }
{
    match then {
        Then::Value | Then::Serve(_) => Ok(Awaits::Value),
        Then::Store(name) => Ok(Awaits::Store(name)),
        Then::AwaitResult(variable) => Ok(Awaits::Result(variable)),
        Then::AwaitEnd(Some(thread)) => Ok(Awaits::End(thread)),
        Then::AwaitEnd(None) => Ok(Awaits::NamedEnd),
        Then::AwaitMove => moving(request),
        Then::Retake => retaking(request),
        Then::Held(script) => holding(script, request),
    }
}

fn moving(request: &Request) -> Result<Awaits, NoMemory>
    ensures { IfOk result (λ awaits. awaits ≡ table.moving request.now) }
{
    match request {
        Request::Chan(call) => match call.get() {
            ChanCall::Transfer { chan, .. } => Ok(Awaits::Move(chan.copy()?)),
            _ => Ok(Awaits::Value),
        },
        _ => Ok(Awaits::Value),
    }
}

fn retaking(request: &Request) -> Result<Awaits, NoMemory>
    ensures { IfOk result (λ awaits. awaits ≡ table.retaking request.now) }
{
    match request {
        Request::Lock(call) => match call.get() {
            LockCall::CondWait { cond, mutex, .. } => Ok(Awaits::Retake(
                cond.copy()?,
                mutex.copy()?,
            )),
            _ => Ok(Awaits::Value),
        },
        _ => Ok(Awaits::Value),
    }
}

fn holding(script: Text, request: &Request) -> Result<Awaits, NoMemory>
    ensures { IfOk result (λ awaits. awaits ≡ table.holding script request.now) }
{
    match request {
        Request::Tsv(call) => match call.get() {
            TsvCall::Hold { array } => Ok(Awaits::Held(Hold::Array(array.copy()?), script)),
            _ => Ok(Awaits::Value),
        },
        Request::Lock(call) => match call.get() {
            LockCall::Lock { id } => Ok(Awaits::Held(Hold::Mutex(id.copy()?), script)),
            _ => Ok(Awaits::Value),
        },
        _ => Ok(Awaits::Value),
    }
}

/// A request was answered.
pub(crate) fn take_reply(alloc: Global, awaits: Awaits, got: Got) -> Result<Next, NoMemory>
    ensures { IfOk result (λ move. (state : Counts)
        → table.on_reply (table.following awaits) got state ≡ plan_of after on_got move state) }
{
    match got {
        Got::Reply(reply) => {
            let next = follow(alloc, awaits, reply)?;
            Ok(next)
        }
        _ => Ok(Next::Done(Ending::nothing(alloc))),
    }
}

fn follow(alloc: Global, awaits: Awaits, reply: Reply) -> Result<Next, NoMemory>
    ensures { IfOk result (λ move. (state : Counts)
        → table.following awaits reply state ≡ plan_of after on_got move state) }
{
    match awaits {
        Awaits::Value => Ok(Next::Done(answer(alloc, reply)?)),
        Awaits::Store(name) => {
            let next = keep(alloc, name, reply)?;
            Ok(next)
        }
        Awaits::Outcome(variable) => {
            let next = keep_outcome(alloc, variable, reply)?;
            Ok(next)
        }
        Awaits::Answers(value) => Ok(Next::Done(unless_refused(alloc, value, reply)?)),
        Awaits::Result(variable) => {
            let next = await_result(alloc, variable, reply)?;
            Ok(next)
        }
        Awaits::End(thread) => {
            let next = await_end(alloc, thread, reply)?;
            Ok(next)
        }
        Awaits::Held(hold, script) => {
            let next = begin_hold(alloc, hold, script, reply)?;
            Ok(next)
        }
        Awaits::NamedEnd => {
            let next = await_named(alloc, reply)?;
            Ok(next)
        }
        Awaits::Move(chan) => {
            let next = await_move(alloc, chan, reply)?;
            Ok(next)
        }
        Awaits::Retake(cond, mutex) => {
            let next = retake(alloc, cond, mutex, reply)?;
            Ok(next)
        }
    }
}

// The result of a post is waited for.
fn await_result(alloc: Global, variable: Option<Text>, reply: Reply) -> Result<Next, NoMemory>
    ensures { IfOk result (λ move. (state : Counts)
        → table.following (awaits.Result variable) reply state ≡ plan_of after on_got move state) }
{
    match reply {
        Reply::Posted(n) => {
            let next = ask(alloc, Request::Await { n }, Awaits::Outcome(variable))?;
            Ok(next)
        }
        reply => Ok(Next::Done(answer(alloc, reply)?)),
    }
}

// The end of a thread is waited for; the answer is the count that is left.
fn await_end(alloc: Global, thread: u32, reply: Reply) -> Result<Next, NoMemory>
    ensures { IfOk result (λ move. (state : Counts)
        → table.following (awaits.End thread) reply state ≡ plan_of after on_got move state) }
{
    match reply {
        Reply::Value(count) => {
            let next = ask(alloc, Request::AwaitEnd { thread }, Awaits::Answers(count))?;
            Ok(next)
        }
        reply => Ok(Next::Done(answer(alloc, reply)?)),
    }
}

// The end of the thread that the reply names is waited for.
fn await_named(alloc: Global, reply: Reply) -> Result<Next, NoMemory>
    ensures { IfOk result (λ move. (state : Counts)
        → table.following awaits.NamedEnd reply state ≡ plan_of after on_got move state) }
{
    match reply {
        Reply::Waits(thread) => {
            let next = ask(alloc, Request::AwaitEnd { thread }, Awaits::Value)?;
            Ok(next)
        }
        reply => Ok(Next::Done(answer(alloc, reply)?)),
    }
}

// The move of a channel is waited for.
fn await_move(alloc: Global, chan: Text, reply: Reply) -> Result<Next, NoMemory>
    ensures { IfOk result (λ move. (state : Counts)
        → table.following (awaits.Move chan) reply state ≡ plan_of after on_got move state) }
{
    match reply {
        Reply::Go => {
            let call = Boxed::new(alloc, ChanCall::AwaitMove { chan })?;
            let next = ask(alloc, Request::Chan(call), Awaits::Value)?;
            Ok(next)
        }
        reply => Ok(Next::Done(answer(alloc, reply)?)),
    }
}

// The wait for a condition is ended, and the mutex taken again.
fn retake(alloc: Global, cond: Text, mutex: Text, reply: Reply) -> Result<Next, NoMemory>
    ensures { IfOk result (λ move. (state : Counts)
        → table.following (awaits.Retake cond mutex) reply state ≡ plan_of after on_got move state) }
{
    match reply {
        Reply::Go => {
            let call = Boxed::new(alloc, LockCall::CondTake { cond, mutex })?;
            let next = ask(alloc, Request::Lock(call), Awaits::Value)?;
            Ok(next)
        }
        reply => Ok(Next::Done(answer(alloc, reply)?)),
    }
}

/// A command asks, and that follows the reply.
pub(crate) fn ask(alloc: Global, request: Request, awaits: Awaits) -> Result<Next, NoMemory>
    ensures { IfOk result (λ move. move ≡ moves.Ask (wants.Ask request) (askings.Replied awaits)) }
{
    let request = Boxed::new(alloc, request)?;
    Ok(Next::Ask(Want::Ask { request }, Asking::Replied(awaits)))
}

// The script is evaluated while that is held.
fn begin_hold(alloc: Global, hold: Hold, script: Text, reply: Reply) -> Result<Next, NoMemory>
    ensures { IfOk result (λ move. (state : Counts)
        → table.following (awaits.Held hold script) reply state ≡ plan_of after on_got move state) }
{
    match reply {
        Reply::Go => Ok(Next::Goto(Job::Held(hold, script))),
        reply => Ok(Next::Done(answer(alloc, reply)?)),
    }
}

/// The answer that a reply is.
pub(crate) fn answer(alloc: Global, reply: Reply) -> Result<Ending, NoMemory>
    ensures { IfOk result (λ ending. ending ≡ table.answer reply) }
{
    match reply {
        Reply::Refused(message) => {
            let ending = Ending::failed(alloc, message)?;
            Ok(ending)
        }
        Reply::Value(text) | Reply::Line(text) => Ok(Ending::Fine(Value::from_text(text))),
        Reply::Lists(removed, _left) => Ok(Ending::Fine(Value::from_text(removed))),
        Reply::Answer(outcome) => {
            let ending = Ending::of_outcome(alloc, outcome)?;
            Ok(ending)
        }
        Reply::Died => {
            let ending = Ending::failed_with(alloc, b"target thread died")?;
            Ok(ending)
        }
        _ => Ok(Ending::nothing(alloc)),
    }
}

// A variable gets what is in a reply.
fn keep(alloc: Global, name: Text, reply: Reply) -> Result<Next, NoMemory>
    ensures { IfOk result (λ move. (state : Counts)
        → table.reply_in_variable name reply state ≡ plan_of after on_got move state) }
{
    let (value, answer) = match reply {
        Reply::Line(line) => {
            let count = count_text(alloc, &line)?;
            (line, count)
        }
        Reply::LineEnd => (Text::new(alloc), Text::from_bytes(alloc, b"-1")?),
        Reply::Found(true, value) => (value, Text::from_bytes(alloc, b"1")?),
        Reply::Found(false, _) => {
            let answer = Value::from_text(Text::from_bytes(alloc, b"0")?);
            return Ok(Next::Done(Ending::Fine(answer)));
        }
        Reply::Lists(removed, left) => (left, removed),
        reply => return Ok(Next::Done(self::answer(alloc, reply)?)),
    };
    let next = store(
        alloc,
        Some(name),
        Value::from_text(value),
        Value::from_text(answer),
    )?;
    Ok(next)
}

// How many characters a line has.
fn count_text(alloc: Global, line: &Text) -> Result<Text, NoMemory>
    ensures { IfOk result (λ text. text ≡ decimal (length (characters line.now))) }
{
    let mut buffer = Buffer::new();
    let text = Text::from_bytes(alloc, buffer.format(char_count(line.as_bytes())).as_bytes())?;
    Ok(text)
}

// The outcome of a post.
fn keep_outcome(alloc: Global, variable: Option<Text>, reply: Reply) -> Result<Next, NoMemory>
    ensures { IfOk result (λ move. (state : Counts)
        → table.outcome_in variable reply state ≡ plan_of after on_got move state) }
{
    match (variable, reply) {
        (Some(name), Reply::Answer(outcome)) => {
            let Outcome { code, value, .. } = outcome;
            let number = Text::from_bytes(alloc, code_number(code))?;
            let next = store(alloc, Some(name), value, Value::from_text(number))?;
            Ok(next)
        }
        (_, reply) => Ok(Next::Done(answer(alloc, reply)?)),
    }
}

fn unless_refused(alloc: Global, value: Text, reply: Reply) -> Result<Ending, NoMemory>
    ensures { IfOk result (λ ending. ending ≡ table.unless_refused value reply) }
{
    match reply {
        Reply::Refused(message) => {
            let ending = Ending::failed(alloc, message)?;
            Ok(ending)
        }
        _ => Ok(Ending::Fine(Value::from_text(value))),
    }
}

/// A send to oneself ended so.
pub(crate) fn after_sent(
    alloc: Global,
    variable: Option<Text>,
    ending: Ending,
) -> Result<Next, NoMemory>
    ensures { IfOk result (λ move. (state : Counts)
        → table.own_send variable ending state ≡ plan_of after on_got move state) }
{
    match variable {
        None => Ok(Next::Done(ending)),
        Some(name) => {
            let number = Text::from_bytes(alloc, code_number(ending.code()))?;
            let next = store(
                alloc,
                Some(name),
                ending.into_value(),
                Value::from_text(number),
            )?;
            Ok(next)
        }
    }
}
