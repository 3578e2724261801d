ghost use Rattle.std.specs.Prelude.{◌≤◌, ◌<◌};
ghost use Rattle.tt_schedule.specs.ScheduleText.{most_steps};

use crate::begun::{Begun, Trial};
use crate::chooser::Chooser;
use crate::judging::{is_find, is_out_of_memory};
use crate::trial::chosen_trial;
use std::alloc::Global;
use tt_search_words::Difference;
use tt_session::End;
use tt_text::NoMemory;

/// What all runs of a search have in common.
#[derive(Drop)]
pub(crate) struct Hunt<'a> {
    pub(crate) begun: &'a Begun,
    /// The run in turn.
    pub(crate) in_turn: &'a Trial,
    pub(crate) seed: u64,
    pub(crate) switches: u32,
    pub(crate) steps: u32,
    pub(crate) difference: Difference,
}

/// A run that ended otherwise.
#[derive(Drop)]
pub(crate) struct Find {
    /// Its number; 0 is the run in turn.
    pub(crate) run: u64,
    pub(crate) trial: Trial,
}

/// What a worker's part of a round came to.
#[derive(Drop)]
pub(crate) struct Share {
    /// The numbers of its runs that came to their most steps.
    pub(crate) cut: Vec<u64>,
    /// How many steps its runs took.
    pub(crate) steps: u64,
    /// Its first find, after which it made no run.
    pub(crate) find: Option<Find>,
}

impl Hunt<'_> {
    /// The runs from a number on, each so many after the one before, below an end, up to the first find.
    ///
    /// `NoMemory` if memory is refused in one of them.
    pub(crate) fn share(
        &self,
        alloc: Global,
        start: u64,
        stride: u64,
        end: u64,
    ) -> Result<Share, NoMemory>
        requires stride { 0 < stride }
        requires steps { self.now.steps ≤ most_steps }
    {
        let mut cut = Vec::new(alloc);
        let mut steps = 0u64;
        let mut run = start;
        while run < end {
            let trial = self.random_trial(alloc, run)?;
            steps = steps.saturating_add(trial.schedule.len());
            if is_find(self.in_turn, &trial, self.difference) {
                let find = Some(Find { run, trial });
                return Ok(Share { cut, steps, find });
            }
            if matches!(trial.end, End::StepLimit(_)) {
                cut.push(run)?;
            }
            run = run.saturating_add(stride);
        }
        Ok(Share {
            cut,
            steps,
            find: None,
        })
    }

    /// The run with this number.
    fn random_trial(&self, alloc: Global, run: u64) -> Result<Trial, NoMemory>
        requires { self.now.steps ≤ most_steps }
    {
        let expected = self.in_turn.schedule.len();
        let mut chooser = Chooser::new(alloc, self.seed, run, self.switches, expected)?;
        let trial = chosen_trial(alloc, self.begun, &mut chooser, self.steps)?;
        if is_out_of_memory(&trial) {
            return Err(NoMemory);
        }
        Ok(trial)
    }
}
