ghost use Rattle.std.specs.Prelude.{◌≡◌, ◌≤◌, IfOk, IfSome, IsTrue, Some};
ghost use Rattle.tt_debug.specs.Lines.{place_line};
ghost use Rattle.tt_debug.specs.Shown.{ComesTo, IsObeyed, IsShownAt};
ghost use Rattle.tt_debug.specs.declared.command.Command.TheVariants.{Threads, Queue, Array, Bytes, Unknown};
ghost use Rattle.tt_debug.specs.inside.Walking.{IsRunOf};

use crate::command::{Command, read_command};
use crate::showing::{array_line, bytes_line, place_line, queue_lines, unknown_line};
use crate::threads::threads_text;
use crate::walking::go_to;
use std::alloc::Global;
use std::marker::Model;
use tt_core::{Setup, System};
use tt_devices::{MemorySink, MemorySource};
use tt_schedule::Schedule;
use tt_text::{NoMemory, Text, Texts};

/// A run over devices in memory.
type Run = System<MemorySource, MemorySink, MemorySink>;

/// A debugging session: it stands at a place of the schedule, that is, after so many of its entries. Contracts see how
/// the run begins, the schedule and the place.
#[derive(Drop)]
pub struct Debug {
    setup: Setup,
    given: Schedule,
    place: u64,
    // The run at that place; after want of memory there may be none.
    run: Option<Run>,
    alloc: Global,
}

impl Model for Debug {
    ghost use Rattle.tt_debug.specs.Session.{Session};
    ghost use Rattle.tt_debug.specs.inside.Walking.{IsRunOf, IsSession};

    ghost Value = { Session };

    ghost view = { λ debug. record {
      setup = debug.setup;
      given = debug.given.threads;
      place = debug.place;
    } };

    ghost invariant = { λ debug. IsSession
        (IsRunOf debug.setup debug.given.threads debug.place)
        debug.setup debug.given.threads debug.place debug.run };
}

impl Debug {
    /// A session over the run that begins so, before the first entry of this schedule.
    ///
    /// `NoMemory` if memory is refused.
    pub fn new(alloc: Global, setup: Setup, schedule: Schedule) -> Result<Self, NoMemory>
        ensures new { IfOk result (λ debug.
            debug ≡ record { setup = setup; given = schedule.threads; place = 0 }) }
    {
        let run = started(alloc, &setup, &schedule)?;
        Ok(Debug {
            setup,
            given: schedule,
            place: 0,
            run: Some(run),
            alloc,
        })
    }

    /// What a line of the session shows; a move leads to another place.
    ///
    /// `NoMemory` if memory is refused; then the session may be at another place, and is only fit to be dropped.
    pub fn answer(&mut self, line: &[u8]) -> Result<Text, NoMemory>
        ensures shown { IfOk result (λ text.
            IsShownAt self.old.setup self.old.given self.old.place line.now text self.new.place) }
        ensures same { (self.new.setup ≡ self.old.setup) × (self.new.given ≡ self.old.given) }
    {
        let command = read_command(self.alloc, line)?;
        let text = self.obey(&command)?;
        Ok(text)
    }

    fn obey(&mut self, command: &Command) -> Result<Text, NoMemory>
        ensures obeyed { IfOk result (λ text.
            IsObeyed self.old.setup self.old.given command.now self.old.place text self.new.place) }
        ensures same { (self.new.setup ≡ self.old.setup) × (self.new.given ≡ self.old.given) }
    {
        let place = self.place;
        match command {
            Command::Step(count) => self.go(place + u64::from(*count)),
            Command::Back(count) => self.go(place.saturating_sub(u64::from(*count))),
            Command::To(wanted) => self.go(u64::from(*wanted)),
            Command::Threads => self.show_threads(),
            Command::Queue(thread) => self.show_queue(*thread),
            Command::Array(name) => self.show_array(name),
            Command::Bytes => self.show_bytes(),
            Command::Unknown => self.show_unknown(),
        }
    }

    // Goes to a place, or as near to it as one comes.
    fn go(&mut self, wanted: u64) -> Result<Text, NoMemory>
        ensures comes { IfOk result (λ text. ComesTo self.old.setup self.old.given wanted self.new.place
            × (text ≡ place_line self.new.place)) }
        ensures same { (self.new.setup ≡ self.old.setup) × (self.new.given ≡ self.old.given) }
    {
        let (mut run, from) = self.run_before(wanted)?;
        let place = go_to(&mut run, &self.given, from, wanted)?;
        self.run = Some(run);
        self.place = place;
        let text = place_line(self.alloc, place)?;
        Ok(text)
    }

    // The run, if it isn't past this place; else another one, at the start.
    fn run_before(&mut self, wanted: u64) -> Result<(Run, u64), NoMemory>
        ensures run { IfOk result (λ found.
            IsRunOf self.old.setup self.old.given found.1 found.0 × (found.1 ≤ wanted)) }
        ensures same { self.new ≡ self.old }
    {
        match only_if(self.place <= wanted, self.run.take()) {
            Some(run) => Ok((run, self.place)),
            None => {
                let run = started(self.alloc, &self.setup, &self.given)?;
                Ok((run, 0))
            }
        }
    }

    // The run at the place.
    fn run(&self) -> Result<&Run, NoMemory>
        ensures run { IfOk result (λ run. IsRunOf self.now.setup self.now.given self.now.place run.now) }
    {
        match &self.run {
            Some(run) => Ok(run),
            None => Err(NoMemory),
        }
    }

    fn show_threads(&self) -> Result<Text, NoMemory>
        ensures { IfOk result (λ text.
            IsObeyed self.now.setup self.now.given Threads self.now.place text self.now.place) }
    {
        let run = self.run()?;
        let text = threads_text(self.alloc, run)?;
        Ok(text)
    }

    fn show_queue(&self, thread: Option<u32>) -> Result<Text, NoMemory>
        ensures { IfOk result (λ text.
            IsObeyed self.now.setup self.now.given (Queue thread) self.now.place text self.now.place) }
    {
        let run = self.run()?;
        let text = queue_lines(self.alloc, run.shared(), thread)?;
        Ok(text)
    }

    fn show_array(&self, name: &Text) -> Result<Text, NoMemory>
        ensures { IfOk result (λ text.
            IsObeyed self.now.setup self.now.given (Array name.now) self.now.place text self.now.place) }
    {
        let run = self.run()?;
        let text = array_line(self.alloc, run.shared(), name.as_bytes())?;
        Ok(text)
    }

    fn show_bytes(&self) -> Result<Text, NoMemory>
        ensures { IfOk result (λ text.
            IsObeyed self.now.setup self.now.given Bytes self.now.place text self.now.place) }
    {
        let run = self.run()?;
        let out = run.output().bytes();
        let err = run.errors().bytes();
        let text = bytes_line(self.alloc, out.len() as u64, err.len() as u64)?;
        Ok(text)
    }

    fn show_unknown(&self) -> Result<Text, NoMemory>
        ensures { IfOk result (λ text.
            IsObeyed self.now.setup self.now.given Unknown self.now.place text self.now.place) }
    {
        let text = unknown_line(self.alloc)?;
        Ok(text)
    }
}

/// The value, if this says so.
fn only_if<T: Drop>(keeps: bool, value: Option<T>) -> Option<T>
    ensures { IfSome result (λ kept. IsTrue keeps × (value ≡ Some kept)) }
{
    if keeps { value } else { None }
}

/// The run that begins so, before the first entry of a schedule.
fn started(alloc: Global, setup: &Setup, given: &Schedule) -> Result<Run, NoMemory>
    ensures run { IfOk result (λ run. IsRunOf setup.now given.now.threads 0 run) }
{
    let setup = copy_setup(alloc, setup)?;
    let input = MemorySource::new(Vec::new(alloc), Vec::new(alloc));
    let output = MemorySink::new(alloc, Vec::new(alloc));
    let errors = MemorySink::new(alloc, Vec::new(alloc));
    match System::new(alloc, setup, input, output, errors) {
        Ok(run) => Ok(run),
        Err(_) => Err(NoMemory),
    }
}

fn copy_setup(alloc: Global, setup: &Setup) -> Result<Setup, NoMemory>
    ensures { IfOk result (λ copy. copy ≡ setup.now) }
{
    let script = setup.script.copy()?;
    let name = setup.name.copy()?;
    let arguments = Texts::from_copies(alloc, setup.arguments.as_slice())?;
    Ok(Setup {
        script,
        name,
        arguments,
        limit: setup.limit,
    })
}
