use tt_text::Text;

/// The kinds of locks that are made (thread(n)).
#[derive(Clone, Copy, Debug, PartialEq, Eq)]
pub enum Kind {
    Exclusive,
    Recursive,
    ReadWrite,
    Condition,
}

/// The kinds of locks that a command speaks of (thread(n)): `thread::mutex` of the first two.
#[derive(Clone, Copy, Debug, PartialEq, Eq)]
pub enum Family {
    Mutex,
    ReadWrite,
    Condition,
}

/// A call on a lock (thread(n), thread::mutex, thread::rwmutex, thread::cond, thread::eval).
#[derive(Debug, Drop)]
pub enum LockCall {
    /// Make a lock.
    Create {
        kind: Kind,
    },
    /// Remove one.
    Destroy {
        family: Family,
        id: Text,
    },
    /// Take a mutex; the empty id is the one of `thread::eval` without `-lock`.
    Lock {
        id: Text,
    },
    /// Take a read-write lock for reading.
    ReadLock {
        id: Text,
    },
    /// Take a read-write lock for writing.
    WriteLock {
        id: Text,
    },
    /// Give one hold up.
    Unlock {
        family: Family,
        id: Text,
    },
    /// Wake all that wait for a condition.
    Notify {
        id: Text,
    },
    /// Free the mutex and begin to wait for the condition, for so many milliseconds at most if `after` has a number.
    CondWait {
        cond: Text,
        mutex: Text,
        after: Option<u64>,
    },
    /// End the wait for the condition, and take the mutex again.
    CondTake {
        cond: Text,
        mutex: Text,
    },
}
