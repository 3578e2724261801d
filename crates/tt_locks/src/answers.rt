ghost use Rattle.std.specs.Prelude.{◌≡◌, IfOk, OnOk};
ghost use Rattle.tt_calls.specs.declared.reply.Reply.TheVariants.{Refused, Value};
ghost use Rattle.tt_locks.specs.Calls.{act, acts, begins_wait, destroys_named, in_use, is_first, missing, step_after};
ghost use Rattle.tt_locks.specs.Calls.{table_after};
ghost use Rattle.tt_locks.specs.Table.{new_id, with_new};

use crate::lock::{Deed, refused};
use crate::numbers::names_of;
use crate::{Lock, Locks};
use std::alloc::Global;
use tt_calls::{Family, Kind, LockCall, Reply, Step};
use tt_ids::id_text;
use tt_text::{NoMemory, Text};

impl Locks {
    /// What a call of a thread on locks does, and its reply; `Wait` exactly if it has to wait, and then nothing is
    /// done (thread(n)).
    ///
    /// `NoMemory` if memory for a lock, a hold or the reply is refused.
    pub fn apply(&mut self, thread: u32, call: &LockCall) -> Result<Step, NoMemory>
        ensures table { OnOk result (self.new ≡ table_after self.old thread call.now) }
        ensures step { IfOk result (λ step. step ≡ step_after self.old thread call.now) }
    {
        if self.waits(thread, call) {
            return Ok(Step::Wait);
        }
        let reply = self.act(thread, call)?;
        Ok(Step::Reply(reply))
    }

    fn act(&mut self, thread: u32, call: &LockCall) -> Result<Reply, NoMemory>
        ensures table { OnOk result (self.new ≡ (act self.old thread call.now).table) }
        ensures reply { IfOk result (λ reply. reply ≡ (act self.old thread call.now).reply) }
    {
        match call {
            LockCall::Create { kind } => self.create(*kind),
            LockCall::Destroy { family, id } => self.destroy(*family, id),
            LockCall::Lock { id } => self.acts_on(Deed::Lock, thread, Family::Mutex, id),
            LockCall::ReadLock { id } => self.acts_on(Deed::Read, thread, Family::ReadWrite, id),
            LockCall::WriteLock { id } => self.acts_on(Deed::Write, thread, Family::ReadWrite, id),
            LockCall::Unlock { family, id } => self.acts_on(Deed::Unlock, thread, *family, id),
            LockCall::Notify { id } => self.acts_on(Deed::Notify, thread, Family::Condition, id),
            LockCall::CondWait { cond, mutex, .. } => self.wait(thread, cond, mutex),
            LockCall::CondTake { mutex, .. } => {
                self.acts_on(Deed::Take, thread, Family::Mutex, mutex)
            }
        }
    }

    // A new lock.
    fn create(&mut self, kind: Kind) -> Result<Reply, NoMemory>
        ensures table { OnOk result (self.new ≡ with_new self.old kind) }
        ensures reply { IfOk result (λ reply. reply ≡ Value (new_id self.old kind)) }
    {
        let id = id_text(self.alloc, names_of(kind), self.next.of(kind))?;
        let next = self.next.drawn(kind)?;
        self.others.insert(id.copy()?, Lock::new(self.alloc, kind))?;
        self.next = next;
        Ok(Reply::Value(id))
    }

    // What is done to the lock that the id names.
    fn acts_on(
        &mut self,
        deed: Deed,
        thread: u32,
        family: Family,
        id: &Text,
    ) -> Result<Reply, NoMemory>
        ensures table { OnOk result (self.new ≡ (acts deed self.old thread family id.now).table) }
        ensures reply { IfOk result (λ reply. reply ≡ (acts deed self.old thread family id.now).reply) }
    {
        if self.find(family, id).is_none() {
            return missing(self.alloc, family, id);
        }
        if id.is_empty() {
            return self.first.does(self.alloc, thread, deed);
        }
        match self.others.get_mut(id) {
            Some(lock) => lock.does(self.alloc, thread, deed),
            None => missing(self.alloc, family, id),
        }
    }

    // A lock that is not in use is removed; no command destroys the mutex of the empty id.
    fn destroy(&mut self, family: Family, id: &Text) -> Result<Reply, NoMemory>
        ensures table { OnOk result (self.new ≡ (destroys_named self.old family id.now).table) }
        ensures reply { IfOk result (λ reply. reply ≡ (destroys_named self.old family id.now).reply) }
    {
        if is_first(family, id) {
            return Ok(Reply::Refused(Text::new(self.alloc)));
        }
        let Some(lock) = self.find(family, id) else {
            return missing(self.alloc, family, id);
        };
        if lock.holders.has_none() && lock.waiters.has_none() {
            self.others.remove(id);
            return Ok(Reply::Go);
        }
        in_use(self.alloc, family)
    }

    // The thread gives its mutex up, and begins to wait for the condition.
    fn wait(&mut self, thread: u32, cond: &Text, mutex: &Text) -> Result<Reply, NoMemory>
        ensures table { OnOk result (self.new ≡ (begins_wait self.old thread cond.now mutex.now).table) }
        ensures reply { IfOk result (λ reply. reply ≡ (begins_wait self.old thread cond.now mutex.now).reply) }
    {
        if self.find(Family::Condition, cond).is_none() {
            return missing(self.alloc, Family::Condition, cond);
        }
        match self.find(Family::Mutex, mutex) {
            None => return missing(self.alloc, Family::Mutex, mutex),
            Some(lock) if !lock.is_owned(thread) => {
                return refused(self.alloc, b"mutex is not locked by this thread");
            }
            Some(_) => {}
        }
        self.acts_on(Deed::Free, thread, Family::Mutex, mutex)?;
        self.acts_on(Deed::Wait, thread, Family::Condition, cond)
    }
}

// Whether it is the mutex of the empty id.
fn is_first(family: Family, id: &Text) -> bool
    ensures { result ≡ is_first family id.now }
{
    match family {
        Family::Mutex => id.is_empty(),
        Family::ReadWrite | Family::Condition => false,
    }
}

fn missing(alloc: Global, family: Family, id: &Text) -> Result<Reply, NoMemory>
    ensures { IfOk result (λ reply. reply ≡ Refused (missing family id.now)) }
{
    let what: &[u8] = match family {
        Family::Condition => b"no such condition variable \"",
        _ => b"no such mutex \"",
    };
    let mut text = Text::from_bytes(alloc, what)?;
    text.push_bytes(id.as_bytes())?;
    text.push_bytes(b"\"")?;
    Ok(Reply::Refused(text))
}

fn in_use(alloc: Global, family: Family) -> Result<Reply, NoMemory>
    ensures { IfOk result (λ reply. reply ≡ Refused (in_use family)) }
{
    match family {
        Family::Condition => refused(alloc, b"condition variable is in use"),
        _ => refused(alloc, b"mutex is in use"),
    }
}
