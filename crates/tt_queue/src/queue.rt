ghost use Rattle.std.specs.Prelude.{◌≡◌, ◌++◌, ◌∷◌, ◌↔◌, ◌<◌, [], length, Some, IsTrue, OnOk, OnErr, option_to_list};
ghost use Rattle.std.specs.List.{slice_get};
ghost use Rattle.tt_queue.specs.Events.{is_script, pending};

use std::alloc::Global;
use std::collections::VecDeque;
use std::marker::Model;
use tt_calls::Event;
use tt_text::NoMemory;

/// The events of a thread, from the one that it takes next. Contracts see the list. Both ends take constant time.
#[derive(Debug, Drop)]
pub struct Queue {
    events: VecDeque<Event>,
    // How many of them are scripts.
    scripts: u64,
}

impl Model for Queue {
    ghost use Rattle.std.specs.Prelude.{List, ◌≡◌};
    ghost use Rattle.tt_calls.specs.declared.event.Event.{Event as AnyEvent};
    ghost use Rattle.tt_queue.specs.Events.{pending};

    ghost Value = { List AnyEvent };

    ghost view = { λ queue. queue.events.items };

    ghost invariant = { λ queue. queue.scripts ≡ pending queue.events.items };
}

impl Queue {
    /// No events. It takes no memory.
    pub fn new(alloc: Global) -> Self
        ensures empty { result ≡ [] }
    {
        Queue {
            events: VecDeque::new(alloc),
            scripts: 0,
        }
    }

    /// Adds an event behind all others.
    ///
    /// `NoMemory` if memory for it is refused; then the queue is as it was.
    pub fn push_tail(&mut self, event: Event) -> Result<(), NoMemory>
        ensures pushed { OnOk result (self.new ≡ self.old ++ event ∷ []) }
        ensures unchanged { OnErr result (self.new ≡ self.old) }
    {
        let more = u64::from(is_script(&event));
        self.events.push_back(event)?;
        self.scripts += more;
        Ok(())
    }

    /// Adds an event before all others.
    ///
    /// `NoMemory` if memory for it is refused; then the queue is as it was.
    pub fn push_head(&mut self, event: Event) -> Result<(), NoMemory>
        ensures pushed { OnOk result (self.new ≡ event ∷ self.old) }
        ensures unchanged { OnErr result (self.new ≡ self.old) }
    {
        let more = u64::from(is_script(&event));
        self.events.push_front(event)?;
        self.scripts += more;
        Ok(())
    }

    /// Takes the first event out; None if there is none. It takes no memory.
    pub fn take(&mut self) -> Option<Event>
        ensures taken { self.old ≡ option_to_list result ++ self.new }
        ensures none { result ≡ None ↔ (self.old ≡ []) }
    {
        let event = self.events.pop_front()?;
        self.scripts -= u64::from(is_script(&event));
        Some(event)
    }

    /// How many events there are.
    pub fn len(&self) -> usize
        ensures length { result ≡ length self.now }
    {
        self.events.len()
    }

    /// The event at a place below the length, counted from 0 for the one that is taken next. It takes constant time.
    pub fn at(&self, place: usize) -> &Event
        requires { place < length self.now }
        ensures event { slice_get self.now place ≡ Some result.now }
    {
        &self.events[place]
    }

    /// How many of the events are scripts.
    pub fn pending(&self) -> u64
        ensures pending { result ≡ pending self.now }
    {
        self.scripts
    }

    /// Whether there is no event.
    pub fn is_empty(&self) -> bool
        ensures empty { IsTrue result ↔ (self.now ≡ []) }
    {
        self.events.is_empty()
    }
}

fn is_script(event: &Event) -> bool
    ensures { result ≡ is_script event.now }
{
    matches!(event, Event::Script { .. })
}
