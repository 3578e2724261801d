ghost use Rattle.std.specs.Prelude.{◌≡◌, IfOk, OnOk};
ghost use Rattle.tt_calls.specs.declared.reply.Reply.TheVariants.{Go, Refused};
ghost use Rattle.tt_locks.specs.Lock.{does, family_of, free, with_hold, is_owned, locks, read_locks, without_hold};
ghost use Rattle.tt_locks.specs.Lock.{unlocks};
ghost use Rattle.tt_locks.specs.Lock.{waits_alone, waits_to_read, write_locks};

use crate::Holders;
use std::alloc::Global;
use tt_calls::{Family, Kind, Reply};
use tt_text::{NoMemory, Text};

/// What is done to one lock.
#[derive(Clone, Copy, Debug)]
pub(crate) enum Deed {
    /// To take a mutex.
    Lock,
    /// To begin to read.
    Read,
    /// To begin to write.
    Write,
    /// To give one hold up.
    Unlock,
    /// To give a mutex up before a wait for a condition.
    Free,
    /// To begin a wait for a condition.
    Wait,
    /// To end the waits for a condition.
    Notify,
    /// To take a mutex after such a wait.
    Take,
}

/// A lock (thread(n)).
#[derive(Debug, Drop)]
pub struct Lock {
    pub kind: Kind,
    /// Which threads hold it, each once for each hold that it has.
    pub holders: Holders,
    /// Of a read-write lock, whether its holder writes.
    pub writing: bool,
    /// Of a condition variable, which threads wait for it.
    pub waiters: Holders,
}

impl Lock {
    // One that nobody holds.
    pub(crate) fn new(alloc: Global, kind: Kind) -> Self
        ensures { result ≡ free kind }
    {
        Lock {
            kind,
            holders: Holders::new(alloc),
            writing: false,
            waiters: Holders::new(alloc),
        }
    }

    // Which commands speak of it.
    pub(crate) fn family(&self) -> Family
        ensures { result ≡ family_of self.now.kind }
    {
        match self.kind {
            Kind::Exclusive | Kind::Recursive => Family::Mutex,
            Kind::ReadWrite => Family::ReadWrite,
            Kind::Condition => Family::Condition,
        }
    }

    // Whether the thread has to wait until it can hold it alone.
    pub(crate) fn waits_alone(&self, thread: u32) -> bool
        ensures { result ≡ waits_alone self.now thread }
    {
        !self.holders.has_none() && !self.holders.contains(thread)
    }

    // Whether the thread has to wait until it can read.
    pub(crate) fn waits_to_read(&self, thread: u32) -> bool
        ensures { result ≡ waits_to_read self.now thread }
    {
        self.writing && self.waits_alone(thread)
    }

    // Whether it is an exclusive mutex that the thread holds.
    pub(crate) fn is_owned(&self, thread: u32) -> bool
        ensures { result ≡ is_owned self.now thread }
    {
        matches!(self.kind, Kind::Exclusive) && self.holders.contains(thread)
    }

    // A deed of a thread.
    pub(crate) fn does(&mut self, alloc: Global, thread: u32, deed: Deed) -> Result<Reply, NoMemory>
        ensures lock { OnOk result (self.new ≡ (does deed self.old thread).lock) }
        ensures reply { IfOk result (λ reply. reply ≡ (does deed self.old thread).reply) }
    {
        match deed {
            Deed::Lock => self.lock(alloc, thread),
            Deed::Read => self.read_lock(alloc, thread),
            Deed::Write => self.write_lock(alloc, thread),
            Deed::Unlock => self.unlock(alloc, thread),
            Deed::Free => {
                self.free_one(thread);
                Ok(Reply::Go)
            }
            Deed::Wait => {
                self.waiters.push(thread)?;
                Ok(Reply::Go)
            }
            Deed::Notify => {
                self.waiters.clear();
                Ok(Reply::Go)
            }
            Deed::Take => self.hold(thread, false),
        }
    }

    // The thread takes a mutex.
    fn lock(&mut self, alloc: Global, thread: u32) -> Result<Reply, NoMemory>
        ensures lock { OnOk result (self.new ≡ (locks self.old thread).lock) }
        ensures reply { IfOk result (λ reply. reply ≡ (locks self.old thread).reply) }
    {
        if !matches!(self.kind, Kind::Recursive) && self.holders.contains(thread) {
            return refused(
                alloc,
                b"locking the same exclusive mutex twice from the same thread",
            );
        }
        self.hold(thread, false)
    }

    // The thread begins to read.
    fn read_lock(&mut self, alloc: Global, thread: u32) -> Result<Reply, NoMemory>
        ensures lock { OnOk result (self.new ≡ (read_locks self.old thread).lock) }
        ensures reply { IfOk result (λ reply. reply ≡ (read_locks self.old thread).reply) }
    {
        if self.writing {
            return refused(
                alloc,
                b"read-locking already write-locked mutex from the same thread",
            );
        }
        self.hold(thread, false)
    }

    // The thread begins to write.
    fn write_lock(&mut self, alloc: Global, thread: u32) -> Result<Reply, NoMemory>
        ensures lock { OnOk result (self.new ≡ (write_locks self.old thread).lock) }
        ensures reply { IfOk result (λ reply. reply ≡ (write_locks self.old thread).reply) }
    {
        if !self.holders.contains(thread) {
            return self.hold(thread, true);
        }
        if self.writing {
            return refused(
                alloc,
                b"write-locking the same read-write mutex twice from the same thread",
            );
        }
        refused(
            alloc,
            b"write-locking already read-locked mutex from the same thread",
        )
    }

    // The thread gives one hold up.
    fn unlock(&mut self, alloc: Global, thread: u32) -> Result<Reply, NoMemory>
        ensures lock { OnOk result (self.new ≡ (unlocks self.old thread).lock) }
        ensures reply { IfOk result (λ reply. reply ≡ (unlocks self.old thread).reply) }
    {
        if self.holders.has_none() {
            return refused(alloc, b"mutex is not locked");
        }
        if !self.holders.contains(thread) {
            return refused(alloc, b"mutex is owned by another thread");
        }
        self.free_one(thread);
        Ok(Reply::Go)
    }

    // One hold less of the thread.
    fn free_one(&mut self, thread: u32)
        ensures { self.new ≡ without_hold self.old thread }
    {
        self.holders.remove_one(thread);
        self.writing = false;
    }

    // One hold more of the thread.
    fn hold(&mut self, thread: u32, writing: bool) -> Result<Reply, NoMemory>
        ensures lock { OnOk result (self.new ≡ with_hold self.old thread writing) }
        ensures reply { IfOk result (λ reply. reply ≡ Go) }
    {
        self.holders.push(thread)?;
        self.writing = writing;
        Ok(Reply::Go)
    }
}

pub(crate) fn refused(alloc: Global, message: &[u8]) -> Result<Reply, NoMemory>
    ensures { IfOk result (λ reply. reply ≡ Refused message.now) }
{
    let text = Text::from_bytes(alloc, message)?;
    Ok(Reply::Refused(text))
}
