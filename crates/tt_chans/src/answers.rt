ghost use Rattle.std.specs.Prelude.{◌≡◌, ◌++◌, ◌∷◌, IfOk, OnOk};
ghost use Rattle.tt_calls.specs.declared.reply.Reply.TheVariants.{Value};
ghost use Rattle.tt_chans.specs.Calls.{act, act_own, attaches_named, closes, detaches, eof, gets_named, if_owned};
ghost use Rattle.tt_chans.specs.Calls.{transfer_end, table_with_owner, puts_named, puts_other, step_after, table_after};
ghost use Rattle.tt_chans.specs.Calls.{transfers_named};
ghost use Rattle.tt_chans.specs.Channels.{channel_of, read_id, with_pipe, write_id};

use crate::refusals::{id_of, is_standard, no_thread, not_found, of_channel, refuse_standard};
use crate::{Channel, Chans, End, Owner, Pipe};
use tt_calls::{ChanCall, Reply, Step};
use tt_ids::{IdKind, id_text, number_after};
use tt_text::{NoMemory, Text};

impl Chans {
    /// What a call of a thread on channels does, and its reply; `Wait` exactly if it has to wait, and then nothing is
    /// done. `target` is the linked thread that a transfer names, and `None` if it names none (chan(n); thread(n),
    /// thread::transfer).
    ///
    /// `NoMemory` if memory for a channel, its bytes or the reply is refused.
    pub fn apply(
        &mut self,
        thread: u32,
        call: &ChanCall,
        target: Option<u32>,
    ) -> Result<Step, NoMemory>
        ensures table { OnOk result (self.new ≡ table_after self.old thread target call.now) }
        ensures step { IfOk result (λ step. step ≡ step_after self.old thread target call.now) }
    {
        if self.waits(thread, call) {
            return Ok(Step::Wait);
        }
        let reply = self.act(thread, call, target)?;
        Ok(Step::Reply(reply))
    }

    fn act(&mut self, thread: u32, call: &ChanCall, target: Option<u32>) -> Result<Reply, NoMemory>
        ensures table { OnOk result (self.new ≡ (act self.old thread target call.now).table) }
        ensures reply { IfOk result (λ reply. reply ≡ (act self.old thread target call.now).reply) }
    {
        if is_standard(id_of(call)) {
            return refuse_standard(self.alloc, call);
        }
        self.act_own(thread, call, target)
    }

    fn act_own(
        &mut self,
        thread: u32,
        call: &ChanCall,
        target: Option<u32>,
    ) -> Result<Reply, NoMemory>
        ensures table { OnOk result (self.new ≡ (act_own self.old thread target call.now).table) }
        ensures reply { IfOk result (λ reply. reply ≡ (act_own self.old thread target call.now).reply) }
    {
        match call {
            ChanCall::Pipe => self.pipe(thread),
            ChanCall::Put { chan, bytes } => self.put(thread, chan, bytes),
            ChanCall::GetLine { chan } => self.get_line(thread, chan),
            ChanCall::Eof { chan } => self.eof(thread, chan),
            ChanCall::Close { chan } => self.close(thread, chan),
            ChanCall::Detach { chan } => self.detach(thread, chan),
            ChanCall::Attach { chan } => self.attach(thread, chan),
            ChanCall::Transfer { id, chan } => self.transfer(thread, id, chan, target),
            ChanCall::AwaitMove { chan } => Ok(self.moved(thread, chan)),
        }
    }

    // A new pipe.
    fn pipe(&mut self, thread: u32) -> Result<Reply, NoMemory>
        ensures table { OnOk result (self.new ≡ with_pipe self.old thread) }
        ensures reply { IfOk result (λ reply. reply ≡ Value (read_id self.old ++ 32 ∷ write_id self.old)) }
    {
        let second = number_after(self.next)?;
        let next = number_after(second)?;
        let read_id = id_text(self.alloc, IdKind::Channel, self.next)?;
        let write_id = id_text(self.alloc, IdKind::Channel, second)?;
        let reader = Channel {
            other: write_id.copy()?,
            owner: Owner::Thread(thread),
            end: End::Reads {
                bytes: Pipe::new(self.alloc),
                ended: false,
            },
        };
        let writer = Channel {
            other: read_id.copy()?,
            owner: Owner::Thread(thread),
            end: End::Writes,
        };
        self.channels.insert(read_id.copy()?, reader)?;
        self.channels.insert(write_id.copy()?, writer)?;
        self.next = next;
        let mut ids = read_id;
        ids.push_bytes(b" ")?;
        ids.push_bytes(write_id.as_bytes())?;
        Ok(Reply::Value(ids))
    }

    // Bytes go into the pipe.
    fn put(&mut self, thread: u32, id: &Text, bytes: &Text) -> Result<Reply, NoMemory>
        ensures table { OnOk result (self.new ≡ (puts_named self.old thread id.now bytes.now).table) }
        ensures reply { IfOk result (λ reply. reply ≡ (puts_named self.old thread id.now bytes.now).reply) }
    {
        let Some(channel) = self.owned(thread, id) else {
            return not_found(self.alloc, id);
        };
        match channel.end {
            End::Reads { .. } => of_channel(self.alloc, id, b"\" wasn't opened for writing"),
            End::Writes => {
                let other = channel.other.copy()?;
                self.put_into(&other, bytes)
            }
        }
    }

    // Bytes go to the end of what the read end has.
    fn put_into(&mut self, reader: &Text, bytes: &Text) -> Result<Reply, NoMemory>
        ensures table { OnOk result (self.new ≡ (puts_other self.old reader.now bytes.now).table) }
        ensures reply { IfOk result (λ reply. reply ≡ (puts_other self.old reader.now bytes.now).reply) }
    {
        match self.channels.get_mut(reader) {
            None => {
                let message = Text::from_bytes(self.alloc, b"broken pipe")?;
                Ok(Reply::Refused(message))
            }
            Some(channel) => channel.put(self.alloc, bytes),
        }
    }

    // The next line leaves the pipe.
    fn get_line(&mut self, thread: u32, id: &Text) -> Result<Reply, NoMemory>
        ensures table { OnOk result (self.new ≡ (gets_named self.old thread id.now).table) }
        ensures reply { IfOk result (λ reply. reply ≡ (gets_named self.old thread id.now).reply) }
    {
        if self.owned(thread, id).is_none() {
            return not_found(self.alloc, id);
        }
        match self.channels.get_mut(id) {
            None => not_found(self.alloc, id),
            Some(channel) => channel.get_line(self.alloc, id),
        }
    }

    // Whether the end was met.
    fn eof(&self, thread: u32, id: &Text) -> Result<Reply, NoMemory>
        ensures reply { IfOk result (λ reply. reply ≡ (if_owned (eof self.now) self.now thread id.now).reply) }
    {
        let Some(channel) = self.owned(thread, id) else {
            return not_found(self.alloc, id);
        };
        let text = Text::from_bytes(self.alloc, if channel.is_at_end() { b"1" } else { b"0" })?;
        Ok(Reply::Value(text))
    }

    // The channel is closed.
    fn close(&mut self, thread: u32, id: &Text) -> Result<Reply, NoMemory>
        ensures table { OnOk result (self.new ≡ (closes self.old thread id.now).table) }
        ensures reply { IfOk result (λ reply. reply ≡ (closes self.old thread id.now).reply) }
    {
        if self.owned(thread, id).is_none() {
            return not_found(self.alloc, id);
        }
        self.channels.remove(id);
        Ok(Reply::Go)
    }

    // Nobody owns the channel any more.
    fn detach(&mut self, thread: u32, id: &Text) -> Result<Reply, NoMemory>
        ensures table { OnOk result (self.new ≡ (detaches self.old thread id.now).table) }
        ensures reply { IfOk result (λ reply. reply ≡ (detaches self.old thread id.now).reply) }
    {
        if self.owned(thread, id).is_none() {
            return not_found(self.alloc, id);
        }
        self.set_owner(id, Owner::Detached);
        Ok(Reply::Go)
    }

    // The thread owns a channel that nobody owned.
    fn attach(&mut self, thread: u32, id: &Text) -> Result<Reply, NoMemory>
        ensures table { OnOk result (self.new ≡ (attaches_named self.old thread id.now).table) }
        ensures reply { IfOk result (λ reply. reply ≡ (attaches_named self.old thread id.now).reply) }
    {
        match self.channels.get(id) {
            Some(
                Channel {
                    owner: Owner::Detached,
                    ..
                },
            ) => {
                self.set_owner(id, Owner::Thread(thread));
                Ok(Reply::Go)
            }
            _ => of_channel(self.alloc, id, b"\" is not detached"),
        }
    }

    // The channel is on its way to the target.
    fn transfer(
        &mut self,
        thread: u32,
        to: &Text,
        id: &Text,
        target: Option<u32>,
    ) -> Result<Reply, NoMemory>
        ensures table { OnOk result (self.new ≡ (transfers_named self.old thread to.now id.now target).table) }
        ensures reply { IfOk result (λ reply. reply ≡ (transfers_named self.old thread to.now id.now target).reply) }
    {
        if self.owned(thread, id).is_none() {
            return not_found(self.alloc, id);
        }
        match target {
            None => no_thread(self.alloc, to),
            Some(target) if target == thread => Ok(Reply::Value(Text::new(self.alloc))),
            Some(target) => {
                let from = Some(thread);
                self.set_owner(id, Owner::Moving { from, to: target });
                Ok(Reply::Go)
            }
        }
    }

    // The end of a move: whether the channel came back.
    fn moved(&self, thread: u32, id: &Text) -> Reply
        ensures { result ≡ (transfer_end self.now thread (channel_of self.now id.now)).reply }
    {
        if self.owned(thread, id).is_some() {
            Reply::Died
        } else {
            Reply::Go
        }
    }

    fn set_owner(&mut self, id: &Text, owner: Owner)
        ensures { self.new ≡ table_with_owner self.old id.now owner (channel_of self.old id.now) }
    {
        if let Some(channel) = self.channels.get_mut(id) {
            channel.owner = owner;
        }
    }
}
