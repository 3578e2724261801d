ghost use Rattle.std.specs.Prelude.{◌≡◌, ◌<◌, ◌-◌, ◌++◌, ◌∷◌, [], length, IfNone, IfSome, None, OnOk, is_some};
ghost use Rattle.std.specs.Option.{option_copied};
ghost use Rattle.tt_shared.specs.Mail.{queues_without_events, first_of, with_event, queue_of, queues_with_event};
ghost use Rattle.tt_shared.specs.Mail.{scripts_of, without_first};

use std::alloc::Global;
use std::marker::Model;
use tt_calls::Event;
use tt_queue::Queue;
use tt_text::NoMemory;

/// The queues of all threads, by number from 1. Contracts see the lists of their events.
#[derive(Debug, Drop)]
pub struct Queues {
    queues: Vec<Queue>,
    alloc: Global,
}

impl Model for Queues {
    ghost use Rattle.tt_shared.specs.Mail.{Queues as AnyQueues};

    ghost Value = { AnyQueues };

    ghost view = { λ queues. queues.queues.items };
}

impl Queues {
    /// No queues. It takes no memory.
    pub fn new(alloc: Global) -> Self
        ensures empty { result ≡ [] }
    {
        Queues {
            queues: Vec::new(alloc),
            alloc,
        }
    }

    /// The queue of the next thread, which is empty.
    ///
    /// `NoMemory` if memory for it is refused.
    pub fn add(&mut self) -> Result<(), NoMemory>
        ensures added { OnOk result (self.new ≡ self.old ++ [] ∷ []) }
    {
        self.queues.push(Queue::new(self.alloc))?;
        Ok(())
    }

    // Where the queue of a thread is; none if there is none.
    fn place(&self, thread: u32) -> Option<usize>
        ensures found { IfSome result (λ place. (place < length self.now) × (place ≡ thread - 1) × (0 < thread)) }
        ensures none { IfNone result (queue_of self.now thread ≡ None) }
    {
        let place = usize::try_from(thread).ok()?.checked_sub(1)?;
        (place < self.queues.len()).then_some(place)
    }

    /// The queue of a thread; `None` exactly if there is no such thread. It takes no memory.
    pub fn of(&self, thread: u32) -> Option<&Queue>
        ensures queue { option_copied result ≡ queue_of self.now thread }
    {
        let place = self.place(thread)?;
        Some(&self.queues[place])
    }

    /// An event more for a thread, before all others with `head`, else behind them; nothing if there is no such thread.
    ///
    /// `NoMemory` if memory for it is refused.
    pub fn push(&mut self, thread: u32, head: bool, event: Event) -> Result<(), NoMemory>
        ensures pushed { OnOk result (self.new ≡ queues_with_event self.old thread head event) }
    {
        match self.place(thread) {
            Some(place) => put(&mut self.queues[place], head, event),
            None => Ok(()),
        }
    }

    /// Whether a thread has an event. It takes no memory.
    pub fn has_event(&self, thread: u32) -> bool
        ensures has_event { result ≡ is_some (first_of self.now thread) }
    {
        self.place(thread)
            .is_some_and(|place| !self.queues[place].is_empty())
    }

    /// Takes a thread's first event out; `None` exactly if it has none. It takes no memory.
    pub fn take(&mut self, thread: u32) -> Option<Event>
        ensures first { result ≡ first_of self.old thread }
        ensures rest { self.new ≡ without_first self.old thread }
    {
        let place = self.place(thread)?;
        if self.queues[place].is_empty() {
            return None;
        }
        self.queues[place].take()
    }

    /// How many scripts wait in a thread's queue. It takes no memory.
    pub fn scripts(&self, thread: u32) -> u64
        ensures scripts { result ≡ scripts_of self.now thread }
    {
        match self.place(thread) {
            Some(place) => self.queues[place].pending(),
            None => 0,
        }
    }

    /// Drops all events of a thread. It takes no memory.
    pub fn clear(&mut self, thread: u32)
        ensures cleared { self.new ≡ queues_without_events self.old thread }
    {
        if let Some(place) = self.place(thread) {
            let alloc = self.alloc;
            let queue = &mut self.queues[place];
            *queue = Queue::new(alloc);
        }
    }
}

fn put(queue: &mut Queue, head: bool, event: Event) -> Result<(), NoMemory>
    ensures { OnOk result (queue.new ≡ with_event head event queue.old) }
{
    if head {
        queue.push_head(event)
    } else {
        queue.push_tail(event)
    }
}
