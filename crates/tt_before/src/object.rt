ghost use Rattle.std.specs.Prelude.{◌≡◌, IfOk};

use tt_text::{NoMemory, Text};

/// What one step releases and a later one acquires, so that the one is before the other.
#[derive(Debug, Drop, PartialEq, Eq, Hash)]
pub enum Object {
    /// The steps of a thread, which follow one another.
    Line(u64),
    /// The life of a thread, from when it is made.
    Life(u64),
    /// The queue of a thread.
    Queue(u64),
    /// The queues of all threads.
    Queues,
    /// The slot in which the result of a post is waited for.
    Slot(u64),
    /// The end of a thread.
    End(u64),
    /// A pool of workers.
    Pool(Text),
    /// A mutex, a read-write lock or a condition variable.
    Lock(Text),
    /// A shared array.
    Array(Text),
    /// A pipe, by its number.
    Pipe(u64),
}

impl Object {
    /// A second one that is equal.
    ///
    /// `NoMemory` if memory for it is refused.
    pub(crate) fn copy(&self) -> Result<Object, NoMemory>
        ensures copied { IfOk result (λ object. object ≡ self.now) }
    {
        Ok(match self {
            Object::Line(thread) => Object::Line(*thread),
            Object::Life(thread) => Object::Life(*thread),
            Object::Queue(thread) => Object::Queue(*thread),
            Object::Queues => Object::Queues,
            Object::Slot(number) => Object::Slot(*number),
            Object::End(thread) => Object::End(*thread),
            Object::Pool(id) => Object::Pool(id.copy()?),
            Object::Lock(id) => Object::Lock(id.copy()?),
            Object::Array(name) => Object::Array(name.copy()?),
            Object::Pipe(number) => Object::Pipe(*number),
        })
    }
}
