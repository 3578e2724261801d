ghost use Rattle.std.specs.Prelude.{◌≡◌, IfOk};
ghost use Rattle.std.specs.Arc.{arc_value};
ghost use Rattle.tt_frames.specs.Expressions.{made_needs, text_needs};
ghost use Rattle.tt_frames.specs.Units.{fresh, counts_after_unit, unit_of};

use crate::kept::{Kept, Made};
use crate::program::Program;
use std::alloc::Global;
use std::marker::Model;
use std::sync::Arc;
use tt_text::{NoMemory, Text};

/// How many nested evaluations there are, at most: calls of procedures, eval(n), uplevel(n), served events, held
/// scripts and sends to oneself.
pub const DEEPEST: u64 = 1000;

/// How many units lie between two pauses.
pub const STRETCH: u64 = 10_000;

/// What an evaluation counts.
#[derive(Clone, Copy, Debug, PartialEq, Eq)]
pub struct Counts {
    /// The number of the thread.
    pub me: u32,
    /// How many units the thread may spend.
    pub limit: u64,
    /// How many units are spent: one for each command, each turn of a loop, and each event that was asked for.
    pub units: u64,
    /// How many nested evaluations there are.
    pub nested: u64,
    /// Whether the thread is to stop (thread(n), thread::release).
    pub stopped: bool,
}

/// What an evaluation counts, and the code that it keeps. Contracts see what it counts.
#[derive(Debug, Drop)]
pub struct State {
    pub(crate) counts: Counts,
    kept: Kept,
}

impl Model for State {
    ghost use Rattle.tt_frames.specs.declared.state.Counts.{Counts};

    ghost Value = { Counts };

    ghost view = { λ state. state.counts };
}

/// What spending a unit comes to.
#[derive(Clone, Copy, Debug, PartialEq, Eq)]
pub enum Unit {
    /// All are spent.
    Past,
    /// It is spent, and a pause comes before its work.
    Pauses,
    /// It is spent.
    Spent,
}

impl State {
    /// What a thread of this number counts at its start, which may spend so many units.
    ///
    /// `NoMemory` if memory is refused.
    pub fn new(alloc: Global, me: u32, limit: u64) -> Result<Self, NoMemory>
        ensures fresh { IfOk result (λ state. state ≡ fresh me limit) }
    {
        let counts = Counts {
            me,
            limit,
            units: 0,
            nested: 0,
            stopped: false,
        };
        Ok(State {
            counts,
            kept: Kept::new(alloc)?,
        })
    }

    /// The number of the thread.
    pub fn me(&self) -> u32
        ensures me { result ≡ self.now.me }
    {
        self.counts.me
    }

    /// How many units are spent.
    pub fn units(&self) -> u64
        ensures units { result ≡ self.now.units }
    {
        self.counts.units
    }

    /// A script, made into code.
    ///
    /// `NoMemory` if memory is refused.
    pub fn script(&mut self, text: Text) -> Result<Arc<Program>, NoMemory>
        ensures script { IfOk result (λ program. arc_value program ≡ text) }
        ensures same { self.new ≡ self.old }
    {
        let program = self.kept.script(text)?;
        Ok(program)
    }

    /// A text as an expression, made into code.
    ///
    /// `NoMemory` if memory is refused.
    pub fn expression(&mut self, text: Text) -> Result<Made, NoMemory>
        ensures expression { IfOk result (λ made. made_needs made ≡ text_needs text) }
        ensures same { self.new ≡ self.old }
    {
        let made = self.kept.expression(text)?;
        Ok(made)
    }

    /// Spends a unit, if one is left.
    pub fn spend(&mut self) -> Unit
        ensures unit { result ≡ unit_of self.old }
        ensures spent { self.new ≡ counts_after_unit self.old }
    {
        if self.counts.limit <= self.counts.units {
            return Unit::Past;
        }
        self.counts.units += 1;
        if self.counts.units % STRETCH == 0 {
            Unit::Pauses
        } else {
            Unit::Spent
        }
    }
}
