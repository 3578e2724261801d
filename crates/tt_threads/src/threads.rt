ghost use Rattle.std.specs.Prelude.{◌≡◌, [], length, IfOk, OnOk, IsTrue, option_copied};
ghost use Rattle.tt_threads.specs.Rows.{is_living, linked_thread, living, new_row, number_made, row_of, with_end};
ghost use Rattle.tt_threads.specs.Rows.{with_made};

use crate::{Life, Row, find};
use std::alloc::Global;
use std::marker::Model;
use tt_calls::Start;
use tt_text::NoMemory;

/// The most threads that live at once.
const MOST_LIVING: u32 = 1_000;

/// The threads by number, from 1, those that have ended among them. Contracts see the list of their rows.
#[derive(Debug, Drop)]
pub struct Threads {
    pub(crate) rows: Vec<Row>,
    pub(crate) alloc: Global,
    lives: u32,
}

impl Model for Threads {
    ghost use Rattle.std.specs.Prelude.{List, ◌≡◌, ◌<◌, ◌^◌, length};
    ghost use Rattle.tt_threads.specs.Rows.{living};
    ghost use Rattle.tt_threads.specs.declared.row.Row.{Row as AnyRow};

    ghost Value = { List AnyRow };

    ghost view = { λ threads. threads.rows.items };

    ghost invariant = { λ threads. (threads.lives ≡ living threads.rows.items) × (length threads.rows.items < 2 ^ 32) };
}

impl Threads {
    /// No threads. It takes no memory.
    pub fn new(alloc: Global) -> Self
        ensures empty { result ≡ [] }
    {
        Threads {
            rows: Vec::new(alloc),
            alloc,
            lives: 0,
        }
    }

    /// Makes a thread with the next number, held once if it is preserved, and answers its number; `None` exactly if
    /// 1,000 threads live (thread(n), thread::create).
    ///
    /// `NoMemory` if memory for it is refused, or a number: they are below 2^32.
    pub fn create(
        &mut self,
        start: Start,
        joinable: bool,
        preserved: bool,
    ) -> Result<Option<u32>, NoMemory>
        ensures number { IfOk result (λ number. number ≡ number_made self.old) }
        ensures made { OnOk result (self.new ≡ with_made self.old (new_row start joinable preserved)) }
    {
        if self.lives >= MOST_LIVING {
            return Ok(None);
        }
        let number = u32::try_from(self.rows.len() + 1).map_err(|_| NoMemory)?;
        self.rows.push(Row::new(start, joinable, preserved))?;
        self.lives += 1;
        Ok(Some(number))
    }

    /// Whether a thread was made and has not ended. It takes no memory.
    pub fn lives(&self, thread: u32) -> bool
        ensures lives { result ≡ is_living self.now thread }
    {
        self.row(thread).is_some_and(|row| row.life.lives())
    }

    /// The number of the linked thread of this id; `None` exactly if no thread that lives and isn't marked has it. It
    /// takes no memory.
    pub fn linked(&self, id: &[u8]) -> Option<u32>
        ensures linked { result ≡ linked_thread self.now id.now }
    {
        find::linked(self.rows.as_slice(), id)
    }

    /// The row of a thread; `None` exactly if no thread of that number was made.
    pub fn row(&self, thread: u32) -> Option<&Row>
        ensures row { option_copied result ≡ row_of self.now thread }
    {
        if thread == 0 {
            return None;
        }
        self.rows.get(thread as usize - 1)
    }

    /// How many threads were made, those that have ended among them.
    pub fn thread_count(&self) -> u32
        ensures made { result ≡ length self.now }
    {
        self.rows.len() as u32
    }

    /// How many threads live.
    pub fn living(&self) -> u32
        ensures living { result ≡ living self.now }
    {
        self.lives
    }

    /// Ends a thread that lives, with an exit code. It takes no memory.
    pub fn end(&mut self, thread: u32, code: i64)
        requires lives { IsTrue (is_living self.old thread) }
        ensures ended { self.new ≡ with_end self.old thread code }
    {
        self.rows[thread as usize - 1].life = Life::Ended(code);
        self.lives -= 1;
    }
}
