ghost use Rattle.std.specs.Prelude.{◌≡◌, IfOk, OnOk, option_copied};
ghost use Rattle.tt_calls.specs.declared.lock_call.Family.TheVariants.{Mutex, ReadWrite, Condition};
ghost use Rattle.tt_locks.specs.Calls.{act, step_after, table_after, waits};
ghost use Rattle.tt_locks.specs.Table.{lock_in, no_locks};

use crate::numbers::{Numbers, names_of};
use crate::{Holders, Lock};
use std::alloc::Global;
use std::collections::BTreeMap;
use std::marker::Model;
use tt_calls::{Family, Kind, LockCall, Step};
use tt_text::{NoMemory, Text};

/// The locks of all threads. Contracts see the table of them by their ids.
#[derive(Debug, Drop)]
pub struct Locks {
    pub(crate) first: Lock,
    pub(crate) others: BTreeMap<Text, Lock>,
    pub(crate) next: Numbers,
    pub(crate) alloc: Global,
}

impl Model for Locks {
    ghost use Rattle.tt_locks.specs.Table.{LockTable};

    ghost Value = { LockTable };

    ghost view = { λ locks. record { first = locks.first; others = locks.others.entries; next = locks.next } };
}

impl Locks {
    /// No locks but the one that is there from the start. It takes no memory.
    pub fn new(alloc: Global) -> Self
        ensures empty { result ≡ no_locks }
    {
        Locks {
            first: Lock::new(alloc, Kind::Recursive),
            others: BTreeMap::new(alloc),
            next: Numbers {
                exclusive: 1,
                recursive: 1,
                read_write: 1,
                condition: 1,
            },
            alloc,
        }
    }

    // The lock of an id, if it is one of this family.
    pub(crate) fn find(&self, family: Family, id: &Text) -> Option<&Lock>
        ensures { option_copied result ≡ lock_in self.now family id.now }
    {
        let lock = if id.is_empty() {
            &self.first
        } else {
            self.others.get(id)?
        };
        (lock.family() == family).then_some(lock)
    }

    /// Whether the thread has to wait before its call is done. It takes no memory.
    pub fn waits(&self, thread: u32, call: &LockCall) -> bool
        ensures waits { result ≡ waits self.now thread call.now }
    {
        match call {
            LockCall::Lock { id } => self
                .find(Family::Mutex, id)
                .is_some_and(|lock| lock.waits_alone(thread)),
            LockCall::ReadLock { id } => self
                .find(Family::ReadWrite, id)
                .is_some_and(|lock| lock.waits_to_read(thread)),
            LockCall::WriteLock { id } => self
                .find(Family::ReadWrite, id)
                .is_some_and(|lock| lock.waits_alone(thread)),
            LockCall::CondTake { cond, mutex } => {
                self.find(Family::Condition, cond)
                    .is_some_and(|condition| condition.waiters.contains(thread))
                    || self
                        .find(Family::Mutex, mutex)
                        .is_some_and(|lock| !lock.holders.has_none())
            }
            _ => false,
        }
    }
}
