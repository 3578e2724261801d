//! A thread as a worker resumes it.
ghost use Rattle.std.specs.Prelude.{◌≡◌, IsOk, IsTrue, false};
ghost use Rattle.tt_interp.specs.Interps as interps;
ghost use Rattle.tt_workers.specs.inside.Turns.{IsBack};

use crate::boxed_interp::BoxedInterp;
use crate::next::{Done, Resumption, Task};
use std::marker::Model;
use std::snapshot::Snapshot;
use tt_calls::Reply;
use tt_devices::{Gate, Slice};
use tt_text::NoMemory;

/// A thread that was handed out, until it was resumed and then after that.
#[derive(Drop)]
struct Resuming {
    thread: u32,
    interp: BoxedInterp,
    reply: Option<Reply>,
    resumption: Resumption,
    gone: bool,
    // As it was handed out.
    given: Snapshot<Task>,
}

impl Model for Resuming {
    ghost use Rattle.tt_workers.specs.inside.Slices.{IsResuming, Piece};

    ghost Value = { Piece };

    ghost view = { λ slice. record {
      gone = slice.gone;
      given = slice.given.value;
      done = record { thread = slice.thread; interp = slice.interp; resumption = slice.resumption };
    } };

    ghost invariant = { λ slice.
        IsResuming slice.gone slice.thread slice.interp slice.reply slice.resumption slice.given.value };
}

impl Slice for Resuming {
    type About = Task;

    ghost gone = { λ slice. slice.gone };

    ghost about = { λ slice. slice.given };

    fn go(&mut self) {
        let reply = self.reply.take();
        self.resumption = resumption_of(&self.interp.resume(reply));
        self.gone = true;
    }
}

impl Resuming {
    fn new(task: Task) -> Self
        requires ready { IsTrue (interps.fits task.interp.standing task.reply) }
        ensures new { (result.gone ≡ false) × (result.given ≡ task) }
    {
        let given = Snapshot::of(&task);
        let Task {
            thread,
            interp,
            reply,
        } = task;
        Resuming {
            thread,
            interp,
            reply,
            resumption: Resumption::OutOfMemory,
            gone: false,
            given,
        }
    }

    fn into_done(self) -> Done
        requires gone { IsTrue self.gone }
        ensures back { IsBack self.given result }
    {
        let Resuming {
            thread,
            interp,
            reply: _,
            resumption,
            gone: _,
            given: _,
        } = self;
        Done {
            thread,
            interp,
            resumption,
        }
    }
}

/// How a resumption went that came to this.
fn resumption_of(outcome: &Result<(), NoMemory>) -> Resumption
    ensures { result ≡ Resumption.Halted → IsOk outcome.now }
{
    match outcome {
        Ok(()) => Resumption::Halted,
        Err(_) => Resumption::OutOfMemory,
    }
}

/// A worker lets the gate pass a thread that was handed out to it, and has it back when it was resumed.
pub(crate) fn resumed<G: Gate>(gate: &G, worker: u32, task: Task) -> Done
    requires ready { IsTrue (interps.fits task.interp.standing task.reply) }
    ensures back { IsBack task result }
{
    let thread = task.thread;
    let mut slice = Resuming::new(task);
    gate.pass(worker, thread, &mut slice);
    slice.into_done()
}
