ghost use Rattle.std.specs.Prelude.{◌≡◌, ◌+◌, IfOk, OnOk, drop, length};
ghost use Rattle.std.specs.Option.{option_map};
ghost use Rattle.tt_frames.specs.Programs.{does, end_of, from_front, plain_step, plain_steps, program_from, start_of};
ghost use Rattle.tt_frames.specs.Programs.{steps_of};
ghost use Rattle.tt_script.specs.Messages.{parse_message};
ghost use Rattle.tt_script.specs.Plain.{plain_command};
ghost use Rattle.tt_outcomes.specs.Endings.{error_ending};
ghost use Rattle.tt_outcomes.specs.Places.{in_command};

use std::alloc::Global;
use std::marker::Model;
use std::sync::Arc;
use tt_code::{Code, words_code};
use tt_outcomes::Ending;
use tt_script::{Command, First, ParseFault, first_command};
use tt_text::{NoMemory, Text};

/// A command of a script, made into code.
#[derive(Debug, Drop)]
pub enum Step {
    /// It can't be read; the place is that of its first byte.
    Wrong(ParseFault, usize),
    /// Its words, and the places of its first byte and after its last word.
    Does(Arc<Code>, usize, usize),
}

/// A script, with its commands made into code. Contracts see the script.
#[derive(Debug, Drop)]
pub struct Program {
    text: Text,
    steps: Vec<Step>,
}

impl Model for Program {
    ghost use Rattle.std.specs.Prelude.{ℕ, List, ◌≡◌};
    ghost use Rattle.tt_frames.specs.Programs.{plain_steps, steps_of};

    ghost Value = { List ℕ };

    ghost view = { λ program. program.text };

    ghost invariant = { λ program. plain_steps program.steps.items ≡ steps_of program.text };
}

impl Program {
    /// A script, made into code.
    ///
    /// `NoMemory` if memory for it is refused.
    pub fn new(alloc: Global, text: Text) -> Result<Self, NoMemory>
        ensures text { IfOk result (λ program. program ≡ text) }
    {
        let steps = read_steps(alloc, text.as_bytes())?;
        Ok(Program { text, steps })
    }

    /// The script.
    pub fn text(&self) -> &[u8]
        ensures text { result.now ≡ self.now }
    {
        self.text.as_bytes()
    }

    /// The command of this number, from 0 on; `None` exactly past the last.
    #[tactic(auto, using(crate::proofs::Fronts::dropped))]
    pub fn step(&self, at: usize) -> Option<&Step>
        ensures step { drop at (steps_of self.now)
            ≡ from_front (option_map (λ step. plain_step step.now) result) (drop (at + 1) (steps_of self.now)) }
    {
        self.steps.get(at)
    }

    /// The place of the first byte of a command.
    pub fn start(&self, at: usize) -> usize
        ensures start { result ≡ start_of (drop at (steps_of self.now)) }
    {
        match self.step(at) {
            Some(Step::Wrong(_, start) | Step::Does(_, start, _)) => *start,
            None => 0,
        }
    }

    /// The place after the last word of a command.
    pub fn end(&self, at: usize) -> usize
        ensures end { result ≡ end_of (drop at (steps_of self.now)) }
    {
        match self.step(at) {
            Some(Step::Wrong(_, end) | Step::Does(_, _, end)) => *end,
            None => 0,
        }
    }

    /// How the script ends at a command that can't be read, which begins there.
    ///
    /// `NoMemory` if memory is refused.
    pub fn unread(&self, alloc: Global, fault: ParseFault, start: usize) -> Result<Ending, NoMemory>
        ensures unread { IfOk result (λ ending. ending
            ≡ in_command self.now start (length self.now) (error_ending (parse_message fault))) }
    {
        let ending = Ending::failed_with(alloc, fault.message())?;
        let ending = ending.in_command(self.text(), start, self.text.len())?;
        Ok(ending)
    }

    /// How the script ends if its command of this number ended so, but for a result.
    ///
    /// `NoMemory` if memory is refused.
    pub fn left(&self, at: usize, ending: Ending) -> Result<Ending, NoMemory>
        ensures left { IfOk result (λ left. left ≡ in_command self.now
            (start_of (drop at (steps_of self.now))) (end_of (drop at (steps_of self.now))) ending) }
    {
        let ending = ending.in_command(self.text(), self.start(at), self.end(at))?;
        Ok(ending)
    }
}

#[tactic(auto, unfolding(crate::specs::Programs::steps_of))]
fn read_steps(alloc: Global, text: &[u8]) -> Result<Vec<Step>, NoMemory>
    ensures { IfOk result (λ steps. plain_steps steps.items ≡ steps_of text.now) }
{
    let mut steps = Vec::new(alloc);
    let mut next = Some(0);
    'commands: for _ in 0..text.len() + 1 {
        next = read_step(alloc, &mut steps, text, next)?;
    }
    Ok(steps)
}

// Reads a command from there, if there may be one, and answers where the next one begins.
fn read_step(
    alloc: Global,
    steps: &mut Vec<Step>,
    text: &[u8],
    next: Option<usize>,
) -> Result<Option<usize>, NoMemory>
    ensures steps { OnOk result (plain_steps steps.new.items
        ≡ (program_from text.now (plain_steps steps.old.items) next).steps) }
    ensures next { IfOk result (λ after. after ≡ (program_from text.now (plain_steps steps.old.items) next).next) }
{
    let Some(from) = next else {
        return Ok(None);
    };
    if from > text.len() {
        return Err(NoMemory);
    }
    match first_command(alloc, text, from)? {
        First::Nothing => Ok(None),
        First::Bad(fault, start) => {
            steps.push(Step::Wrong(fault, start))?;
            Ok(None)
        }
        First::Command(command) => {
            let next = command.next;
            steps.push(step_of(alloc, command)?)?;
            Ok(Some(next))
        }
    }
}

fn step_of(alloc: Global, command: Command) -> Result<Step, NoMemory>
    ensures { IfOk result (λ step. plain_step step ≡ does (plain_command command)) }
{
    let code = words_code(alloc, &command.words)?;
    let code = Arc::new(alloc, code)?;
    Ok(Step::Does(code, command.start, command.text_end))
}
