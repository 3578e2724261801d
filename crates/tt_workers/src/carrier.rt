//! A worker's rounds.
ghost use Rattle.std.specs.Prelude.{◌≡◌, None};
ghost use Rattle.tt_noted.specs.Passes.{IsPassOf, IsSamePass, note_of, turn_of};
ghost use Rattle.tt_workers.specs.inside.Turns.{IsReady};
ghost use Rattle.tt_workers.specs.inside.Workers.{IsNoted, IsNotedNext, IsRound, MayEnter};

use crate::next::{Done, Next};
use crate::resuming::resumed;
use crate::tied::Tied;
use std::sync::Wait;
use tt_devices::{Gate, Sink, Source};
use tt_noted::{Noted, Pass};

/// How a round ends: with what the worker brings to its next turn, or with the run.
enum Round {
    Goes(Option<Done>),
    Over,
}

/// The work of one worker, until the run is over. It lets the gate pass each thread before that goes on.
pub(crate) fn carry<R: Wait, S: Source + Send, K: Sink + Send, E: Sink + Send, G: Gate>(
    rt: &R,
    lock: &Noted<Tied<S, K, E>>,
    pass: &mut Pass<Tied<S, K, E>>,
    gate: &G,
)
    requires own { IsPassOf lock.now pass.old }
    requires no_turn { turn_of pass.old ≡ None }
    requires vacant { IsNoted (λ note. note.out ≡ None) (note_of pass.old) }
    ensures own { IsSamePass lock.now pass.old pass.new }
    ensures no_turn { turn_of pass.new ≡ None }
    ensures noted { note_of pass.new ≡ note_of pass.old }
{
    let mut done = None;
    for _ in rt.forever() {
        match one_round(rt, lock, pass, gate, done) {
            Round::Goes(next) => done = next,
            Round::Over => return,
        }
    }
    unreachable!()
}

/// One round of a worker: a turn, and then it resumes the thread that it has, or rests.
fn one_round<R: Wait, S: Source + Send, K: Sink + Send, E: Sink + Send, G: Gate>(
    rt: &R,
    lock: &Noted<Tied<S, K, E>>,
    pass: &mut Pass<Tied<S, K, E>>,
    gate: &G,
    done: Option<Done>,
) -> Round
    requires own { IsPassOf lock.now pass.old }
    requires no_turn { turn_of pass.old ≡ None }
    requires may { MayEnter (note_of pass.old) done }
    ensures own { IsSamePass lock.now pass.old pass.new }
    ensures no_turn { turn_of pass.new ≡ None }
    ensures noted { IsRound (note_of pass.old) (note_of pass.new) result }
{
    match take_turn(rt, lock, pass, done) {
        Next::Run(task) => Round::Goes(Some(resumed(gate, pass.number(), task))),
        Next::Rest => {
            lock.rest(rt, pass);
            Round::Goes(None)
        }
        Next::Over => Round::Over,
    }
}

// From so many units on that its slice spent a worker counts as busy: so many commands take about as long as to wake
// another worker, which then takes part of the work.
const BUSY: u64 = 50;

/// Whether a worker that brings this back is busy: its slice was long, or it was woken, since there was work.
fn is_busy(done: &Option<Done>) -> bool {
    match done {
        Some(done) => done.interp.spent() >= BUSY,
        None => true,
    }
}

/// One turn under the lock. It wakes workers that rest if they are to take part.
fn take_turn<R: Wait, S: Source + Send, K: Sink + Send, E: Sink + Send>(
    rt: &R,
    lock: &Noted<Tied<S, K, E>>,
    pass: &mut Pass<Tied<S, K, E>>,
    done: Option<Done>,
) -> Next
    requires own { IsPassOf lock.now pass.old }
    requires no_turn { turn_of pass.old ≡ None }
    requires may { MayEnter (note_of pass.old) done }
    ensures own { IsSamePass lock.now pass.old pass.new }
    ensures no_turn { turn_of pass.new ≡ None }
    ensures noted { IsNotedNext (note_of pass.old) (note_of pass.new) result }
    ensures ready { IsReady result }
{
    let was_busy = is_busy(&done);
    let mut turn = lock.enter(rt, pass);
    let next = turn.state.turn(pass.number(), done);
    let note = turn.state.note(&next);
    let wakes = turn.state.wakes(was_busy, &next);
    lock.leave_waking(pass, turn, note, wakes);
    next
}
