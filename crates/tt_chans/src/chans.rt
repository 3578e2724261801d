ghost use Rattle.std.specs.Prelude.{◌≡◌, option_copied};
ghost use Rattle.tt_chans.specs.Blocking.{blocker, writer};
ghost use Rattle.tt_chans.specs.Calls.{lacks_line, waits};
ghost use Rattle.tt_chans.specs.Channels.{channel_of, after_arrival, no_channels, table_after_end};
ghost use Rattle.tt_chans.specs.Ends.{own_channel};

use crate::{Channel, End, Owner};
use std::alloc::Global;
use std::collections::BTreeMap;
use std::marker::Model;
use tt_calls::ChanCall;
use tt_text::Text;

/// The channels of all threads but the standard ones. Contracts see the table of them by their ids.
#[derive(Debug, Drop)]
pub struct Chans {
    pub(crate) channels: BTreeMap<Text, Channel>,
    pub(crate) next: u64,
    pub(crate) alloc: Global,
}

impl Model for Chans {
    ghost use Rattle.tt_chans.specs.Channels.{ChannelTable};

    ghost Value = { ChannelTable };

    ghost view = { λ chans. record { channels = chans.channels.entries; next = chans.next } };
}

impl Chans {
    /// No channels. It takes no memory.
    pub fn new(alloc: Global) -> Self
        ensures empty { result ≡ no_channels }
    {
        Chans {
            channels: BTreeMap::new(alloc),
            next: 1,
            alloc,
        }
    }

    // The channel of an id, if the thread owns it.
    pub(crate) fn owned(&self, thread: u32, id: &Text) -> Option<&Channel>
        ensures { option_copied result ≡ own_channel thread (channel_of self.now id.now) }
    {
        let channel = self.channels.get(id)?;
        channel.owner.is(thread).then_some(channel)
    }

    /// Whether the thread has to wait before its call is done: for a line that may come, or until a channel has
    /// moved. It takes no memory.
    pub fn waits(&self, thread: u32, call: &ChanCall) -> bool
        ensures waits { result ≡ waits self.now thread call.now }
    {
        match call {
            ChanCall::GetLine { chan } => self
                .owned(thread, chan)
                .is_some_and(|channel| self.lacks_line(channel)),
            ChanCall::AwaitMove { chan } => self
                .channels
                .get(chan)
                .is_some_and(|channel| channel.owner.moves_from(thread)),
            _ => false,
        }
    }

    // Whether a read end has no line, and more may come.
    fn lacks_line(&self, channel: &Channel) -> bool
        ensures { result ≡ lacks_line self.now channel.now channel.now.end }
    {
        match &channel.end {
            End::Reads { bytes, .. } => {
                !bytes.has_line() && self.channels.contains_key(&channel.other)
            }
            End::Writes => false,
        }
    }

    /// The thread without which the call does not go on: of a read the one that owns the write end of the channel's pipe,
    /// of the wait for a move the one to which `thread` moves the channel. None if there is no such thread, and for all
    /// other calls. It takes no memory.
    pub fn blocker(&self, thread: u32, call: &ChanCall) -> Option<u32>
        ensures blocker { result ≡ blocker self.now thread call.now }
    {
        match call {
            ChanCall::GetLine { chan } => self.writer(chan),
            ChanCall::AwaitMove { chan } => {
                let channel = self.channels.get(chan)?;
                channel.owner.target_from(thread)
            }
            _ => None,
        }
    }

    // The thread that owns the write end of a channel's pipe.
    fn writer(&self, id: &Text) -> Option<u32>
        ensures { result ≡ writer self.now (channel_of self.now id.now) }
    {
        let channel = self.channels.get(id)?;
        let writer = match channel.end {
            End::Reads { .. } => self.channels.get(&channel.other)?,
            End::Writes => channel,
        };
        writer.owner.thread()
    }

    /// The thread has a channel, if that was on its way to it (thread(n), thread::transfer). It takes no memory.
    pub fn give(&mut self, thread: u32, id: &Text)
        ensures given { self.new ≡ after_arrival self.old thread id.now (channel_of self.old id.now) }
    {
        if let Some(channel) = self.channels.get_mut(id) {
            channel.owner = channel.owner.given(thread);
        }
    }

    /// The end of a thread: the channels that it owns are closed, and those on their way to it go back to their
    /// senders, or are closed if these have ended. It takes no memory.
    pub fn end(&mut self, thread: u32)
        ensures ended { self.new ≡ table_after_end self.old thread }
    {
        self.channels
            .retain(|_, channel| channel.stays_open(thread));
        self.channels.retain(|_, channel| {
            channel.owner = channel.owner.after_end(thread);
            true
        });
    }
}
