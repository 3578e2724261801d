ghost use Rattle.std.specs.Prelude.{◌≡◌, IfOk, OnOk};
ghost use Rattle.tt_chans.specs.Blocking.{move_target, thread_of};
ghost use Rattle.tt_chans.specs.Calls.{is_at_end};
ghost use Rattle.tt_chans.specs.Channels.{owner_given};
ghost use Rattle.tt_chans.specs.Ends.{gets_line, is_owned, moves_from, owner_after, puts_into, rest_reply, stays_open};

use crate::Pipe;
use crate::refusals::of_channel;
use std::alloc::Global;
use tt_calls::Reply;
use tt_text::{NoMemory, Text};

/// Whose a channel is.
#[derive(Clone, Copy, Debug, PartialEq, Eq)]
pub enum Owner {
    /// The thread of this number.
    Thread(u32),
    /// Nobody's, so that any thread can attach it (thread(n), thread::detach).
    Detached,
    /// On its way to a thread, from one that has not ended or from none (thread(n), thread::transfer).
    Moving { from: Option<u32>, to: u32 },
}

impl Owner {
    // Whether the thread owns the channel.
    pub(crate) fn is(self, thread: u32) -> bool
        ensures { result ≡ is_owned self thread }
    {
        match self {
            Owner::Thread(owner) => owner == thread,
            Owner::Detached | Owner::Moving { .. } => false,
        }
    }

    // Whether the channel is on its way from the thread.
    pub(crate) fn moves_from(self, thread: u32) -> bool
        ensures { result ≡ moves_from self thread }
    {
        match self {
            Owner::Moving {
                from: Some(sender),
                ..
            } => sender == thread,
            _ => false,
        }
    }

    // The thread that owns the channel.
    pub(crate) fn thread(self) -> Option<u32>
        ensures { result ≡ thread_of self }
    {
        match self {
            Owner::Thread(owner) => Some(owner),
            Owner::Detached | Owner::Moving { .. } => None,
        }
    }

    // The thread to which another one moves the channel.
    pub(crate) fn target_from(self, thread: u32) -> Option<u32>
        ensures { result ≡ move_target thread self }
    {
        match self {
            Owner::Moving {
                from: Some(sender),
                to,
            } if sender == thread => Some(to),
            _ => None,
        }
    }

    // Whose it is once it has come to the thread.
    pub(crate) fn given(self, thread: u32) -> Self
        ensures { result ≡ owner_given thread self }
    {
        match self {
            Owner::Moving { to, .. } if to == thread => Owner::Thread(thread),
            other => other,
        }
    }

    // Whose it is after the end of a thread.
    pub(crate) fn after_end(self, thread: u32) -> Self
        ensures { result ≡ owner_after thread self }
    {
        match self {
            Owner::Moving { from, to } if to == thread => from.map_or(
                Owner::Detached,
                Owner::Thread,
            ),
            Owner::Moving { from, to } if from == Some(thread) => Owner::Moving { from: None, to },
            other => other,
        }
    }
}

/// Which end of its pipe a channel is.
#[derive(Debug, Drop)]
pub enum End {
    /// The end to read from: the bytes that it has, and whether its end was met.
    Reads { bytes: Pipe, ended: bool },
    /// The end to write to.
    Writes,
}

/// A channel.
#[derive(Debug, Drop)]
pub struct Channel {
    /// The id of the other end. If no channel has it, that end was closed.
    pub other: Text,
    pub owner: Owner,
    pub end: End,
}

impl Channel {
    // Whether it stays open at the end of a thread.
    pub(crate) fn stays_open(&self, thread: u32) -> bool
        ensures { result ≡ stays_open thread self.now }
    {
        match self.owner {
            Owner::Thread(owner) => owner != thread,
            Owner::Detached => true,
            Owner::Moving { from, to } => to != thread || from.is_some(),
        }
    }

    // Whether its end was met.
    pub(crate) fn is_at_end(&self) -> bool
        ensures { result ≡ is_at_end self.now.end }
    {
        matches!(self.end, End::Reads { ended: true, .. })
    }

    // Bytes go to the end of what it has.
    pub(crate) fn put(&mut self, alloc: Global, bytes: &Text) -> Result<Reply, NoMemory>
        ensures channel { OnOk result (self.new ≡ (puts_into self.old bytes.now self.old.end).channel) }
        ensures reply { IfOk result (λ reply. reply ≡ (puts_into self.old bytes.now self.old.end).reply) }
    {
        match &mut self.end {
            End::Reads { bytes: pipe, .. } => {
                pipe.put(bytes.as_bytes())?;
                Ok(Reply::Go)
            }
            End::Writes => Ok(Reply::Refused(Text::new(alloc))),
        }
    }

    // Its next line.
    pub(crate) fn get_line(&mut self, alloc: Global, id: &Text) -> Result<Reply, NoMemory>
        ensures channel { OnOk result (self.new ≡ (gets_line self.old id.now self.old.end).channel) }
        ensures reply { IfOk result (λ reply. reply ≡ (gets_line self.old id.now self.old.end).reply) }
    {
        match &mut self.end {
            End::Writes => {
                let reply = of_channel(alloc, id, b"\" wasn't opened for reading")?;
                Ok(reply)
            }
            End::Reads { bytes, .. } if bytes.has_line() => {
                let line = bytes.take_line(alloc)?;
                Ok(Reply::Line(line))
            }
            End::Reads { bytes, ended } => {
                let rest = bytes.take_all(alloc)?;
                *ended = true;
                Ok(rest_reply(rest))
            }
        }
    }
}

// What the rest after the last newline is reported as.
fn rest_reply(rest: Text) -> Reply
    ensures { result ≡ rest_reply rest }
{
    if rest.is_empty() {
        Reply::LineEnd
    } else {
        Reply::Line(rest)
    }
}
