ghost use Rattle.std.specs.Prelude.{◌≡◌, IfOk};
ghost use Rattle.tt_calls.specs.declared.event.Event.TheVariants.{SetVar};
ghost use Rattle.tt_calls.specs.declared.reply.Reply.TheVariants.{Lists};

use tt_calls::{Event, Reply};
use tt_text::{NoMemory, Text};

/// A second reply that is equal.
///
/// `NoMemory` if the memory for it is refused.
pub fn copy_reply(reply: &Reply) -> Result<Reply, NoMemory>
    ensures copied { IfOk result (λ copy. copy ≡ reply.now) }
{
    match reply {
        Reply::Go => Ok(Reply::Go),
        Reply::Value(text) => Ok(Reply::Value(text.copy()?)),
        Reply::Refused(message) => Ok(Reply::Refused(message.copy()?)),
        Reply::Found(found, value) => Ok(Reply::Found(*found, value.copy()?)),
        Reply::Posted(post) => Ok(Reply::Posted(*post)),
        Reply::Waits(thread) => Ok(Reply::Waits(*thread)),
        Reply::Answer(outcome) => Ok(Reply::Answer(outcome.copy()?)),
        Reply::Died => Ok(Reply::Died),
        Reply::Event(event) => Ok(Reply::Event(copy_event(event)?)),
        Reply::NoEvent => Ok(Reply::NoEvent),
        Reply::Served(stops) => Ok(Reply::Served(*stops)),
        Reply::Line(line) => Ok(Reply::Line(line.copy()?)),
        Reply::LineEnd => Ok(Reply::LineEnd),
        Reply::Job(job, script, detached) => Ok(Reply::Job(*job, script.copy()?, *detached)),
        Reply::JobStop => Ok(Reply::JobStop),
        Reply::Lists(first, second) => copy_lists(first, second),
        Reply::Cancelled(unwinds) => Ok(Reply::Cancelled(*unwinds)),
    }
}

fn copy_lists(first: &Text, second: &Text) -> Result<Reply, NoMemory>
    ensures { IfOk result (λ copy. copy ≡ Lists first.now second.now) }
{
    let first = first.copy()?;
    let second = second.copy()?;
    Ok(Reply::Lists(first, second))
}

fn copy_event(event: &Event) -> Result<Event, NoMemory>
    ensures { IfOk result (λ copy. copy ≡ event.now) }
{
    match event {
        Event::Script {
            n,
            script,
            answer,
            plain,
        } => Ok(Event::Script {
            n: *n,
            script: script.copy()?,
            answer: *answer,
            plain: *plain,
        }),
        Event::SetVar { name, value } => copy_set_var(name, value),
        Event::Moved { chan } => Ok(Event::Moved { chan: chan.copy()? }),
        Event::Timer { n, script } => Ok(Event::Timer {
            n: *n,
            script: script.copy()?,
        }),
        Event::Stop => Ok(Event::Stop),
    }
}

fn copy_set_var(name: &Text, value: &Text) -> Result<Event, NoMemory>
    ensures { IfOk result (λ copy. copy ≡ SetVar name.now value.now) }
{
    let name = name.copy()?;
    let value = value.copy()?;
    Ok(Event::SetVar { name, value })
}
