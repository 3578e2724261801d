ghost use Rattle.std.specs.Prelude.{◌≡◌, ◌++◌, ◌∷◌, [], ◌<◌, ◌≤◌, IsTrue, length, slice_index, OnOk, OnErr, ◌↔◌};
ghost use Rattle.tt_schedule.specs.ScheduleText.{most_steps};
ghost use Rattle.tt_ids.specs.ThreadNumbers.{IsInRange};

use crate::run::{Run, add_step, step_count, thread_at};
use std::alloc::Global;
use std::marker::Model;
use tt_text::NoMemory;

/// The thread that takes each step of a run, in order: at most 16,777,216 steps, of threads from 1 to 16,777,216.
/// Contracts see the list of thread numbers, and whether there is room for one more.
#[derive(Debug, Drop)]
pub struct Schedule {
    pub(crate) runs: Vec<Run>,
}

impl Model for Schedule {
    ghost use Rattle.std.specs.Prelude.{nat_lt, vec_len, vec_capacity};
    ghost use Rattle.tt_schedule.specs.inside.Runs.{lines_from, AreRuns};
    ghost use Rattle.tt_schedule.specs.Schedule.{Listing};
    ghost use Rattle.tt_schedule.specs.ScheduleText.{steps_of};

    ghost Value = { Listing };

    ghost view = { λ schedule. record {
      threads = steps_of (lines_from 0 schedule.runs.items);
      has_room = nat_lt (vec_len schedule.runs) (vec_capacity schedule.runs);
    } };

    ghost invariant = { λ schedule. AreRuns 0 schedule.runs.items };
}

impl Schedule {
    /// No steps. It takes no memory.
    pub fn new(alloc: Global) -> Self
        ensures empty { result.threads ≡ [] }
    {
        Schedule {
            runs: Vec::new(alloc),
        }
    }

    /// Makes room for one more step.
    ///
    /// `NoMemory` if memory for it is refused. The steps stay as they are.
    pub fn reserve(&mut self) -> Result<(), NoMemory>
        ensures room { OnOk result (IsTrue self.new.has_room) }
        ensures same { self.new.threads ≡ self.old.threads }
    {
        self.runs.reserve(1)?;
        Ok(())
    }

    /// Adds a step of this thread in the room that `reserve` made. It takes no memory.
    pub fn push_reserved(&mut self, thread: u32)
        requires thread { IsInRange thread }
        requires short { length self.old.threads < most_steps }
        requires room { IsTrue self.old.has_room }
        ensures pushed { self.new.threads ≡ self.old.threads ++ thread ∷ [] }
    {
        add_step(&mut self.runs, thread);
    }

    /// Adds a step of this thread.
    ///
    /// `NoMemory` if memory for it is refused; then the steps stay as they are.
    pub fn push(&mut self, thread: u32) -> Result<(), NoMemory>
        requires thread { IsInRange thread }
        requires short { length self.old.threads < most_steps }
        ensures pushed { OnOk result (self.new.threads ≡ self.old.threads ++ thread ∷ []) }
        ensures unchanged { OnErr result (self.new.threads ≡ self.old.threads) }
    {
        self.reserve()?;
        self.push_reserved(thread);
        Ok(())
    }

    /// How many steps there are.
    pub fn len(&self) -> u64
        ensures count { result ≡ length self.now.threads }
        ensures few { result ≤ most_steps }
    {
        u64::from(step_count(&self.runs))
    }

    /// Whether there is no step.
    pub fn is_empty(&self) -> bool
        ensures { IsTrue result ↔ (length self.now.threads ≡ 0) }
    {
        self.len() == 0
    }

    /// The thread of the step at this place, counted from 0.
    pub fn at(&self, place: u64) -> u32
        requires { place < length self.now.threads }
        ensures thread { result ≡ slice_index self.now.threads place }
        ensures range { IsInRange result }
    {
        thread_at(&self.runs, place as u32)
    }
}
