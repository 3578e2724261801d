//! A run on workers.
ghost use Rattle.std.specs.Prelude.{◌≡◌, ◌≤◌, ℕ, None, replicate};
ghost use Rattle.tt_noted.specs.Passes.{AreFresh, IsPassOf, IsSamePass, count_of, note_of, turn_of};
ghost use Rattle.tt_schedule.specs.ScheduleText.{most_steps};
ghost use Rattle.tt_workers.specs.Ran.{IsRan};
ghost use Rattle.tt_workers.specs.inside.Turns.{note_after};
ghost use Rattle.tt_workers.specs.inside.Workers.{IsNoted};
ghost use Rattle.tt_workers.specs.inside.World.{IsTied};

use crate::carrier::carry;
use crate::next::{Next, RunEnd};
use crate::note::Held;
use crate::ran::Ran;
use crate::tied::Tied;
use crate::world::World;
use std::alloc::Global;
use std::sync::Wait;
use std::thread;
use std::thread::Threads;
use tt_devices::{Gate, Sink, Source};
use tt_interp::Setup;
use tt_noted::{Noted, Pass};
use tt_run::NewFault;
use tt_schedule::Schedule;

/// Runs a script on workers, 1 to 64 of them, over these devices, in at most so many steps, 1 to 16,777,216. Each
/// thread that a worker has taken passes the gate before it goes on. It may wait.
///
/// The workers are threads of their own if threads can be made, and else run one after another. `Memory` is the end too
/// if there is no memory for the run or the lock.
pub fn run<
    R: Threads + Wait + Sync,
    S: Source + Send,
    K: Sink + Send,
    E: Sink + Send,
    G: Gate + Sync,
>(
    rt: &R,
    alloc: Global,
    setup: Setup,
    input: S,
    output: K,
    errors: E,
    workers: u32,
    steps: u32,
    gate: &G,
) -> Ran<S, K, E>
    requires workers { (1 ≤ workers) × (workers ≤ 64) }
    requires steps { (1 ≤ steps) × (steps ≤ most_steps) }
    ensures ran { IsRan S.Source K.Sink E.Sink (record {
      setup = setup;
      steps = steps;
      devices = record { input = input; output = output; errors = errors };
    }) result }
{
    match World::new(alloc, setup, input, output, errors, steps) {
        Ok(world) => run_world(rt, alloc, world, workers, gate),
        Err(fault) => without_memory(alloc, fault),
    }
}

/// A run for which there was no memory.
fn without_memory<S: Source, K: Sink, E: Sink>(
    alloc: Global,
    fault: NewFault<S, K, E>,
) -> Ran<S, K, E>
    ensures ran { (begun : _) → fault ≡ record {
      input = begun.devices.input;
      output = begun.devices.output;
      errors = begun.devices.errors;
    } →
        IsRan S.Source K.Sink E.Sink begun result }
{
    let NewFault {
        input,
        output,
        errors,
    } = fault;
    Ran {
        end: RunEnd::Memory,
        schedule: Schedule::new(alloc),
        input,
        output,
        errors,
    }
}

/// Runs a world that has just begun.
fn run_world<
    R: Threads + Wait + Sync,
    S: Source + Send,
    K: Sink + Send,
    E: Sink + Send,
    G: Gate + Sync,
>(rt: &R, alloc: Global, world: World<S, K, E>, workers: u32, gate: &G) -> Ran<S, K, E>
    requires workers { (1 ≤ workers) × (workers ≤ 64) }
    requires tied { (count : ℕ) → IsTied S.Source K.Sink E.Sink world (replicate count (note_after world None)) }
    ensures ran { IsRan S.Source K.Sink E.Sink world.begun result }
{
    let note = world.note(&Next::Rest);
    match Box::new(alloc, world) {
        Ok(world) => run_boxed(rt, alloc, world, &note, workers, gate),
        Err(failed) => failed.value.finish(),
    }
}

fn run_boxed<
    R: Threads + Wait + Sync,
    S: Source + Send,
    K: Sink + Send,
    E: Sink + Send,
    G: Gate + Sync,
>(
    rt: &R,
    alloc: Global,
    world: Box<World<S, K, E>>,
    note: &Held<S, K, E>,
    workers: u32,
    gate: &G,
) -> Ran<S, K, E>
    requires workers { (1 ≤ workers) × (workers ≤ 64) }
    requires note { note.now ≡ note_after world.value None }
    requires tied { (count : ℕ) → IsTied S.Source K.Sink E.Sink world.value (replicate count note.now) }
    ensures ran { IsRan S.Source K.Sink E.Sink world.value.begun result }
{
    match Noted::<Tied<S, K, E>>::new(alloc, world, workers, note) {
        Ok((lock, passes)) => finished(carried(rt, lock, passes, workers, note, gate)),
        Err(world) => finished(world),
    }
}

/// The world after all workers have done their work.
fn carried<
    R: Threads + Wait + Sync,
    S: Source + Send,
    K: Sink + Send,
    E: Sink + Send,
    G: Gate + Sync,
>(
    rt: &R,
    lock: Noted<Tied<S, K, E>>,
    mut passes: Vec<Pass<Tied<S, K, E>>>,
    workers: u32,
    note: &Held<S, K, E>,
    gate: &G,
) -> Box<World<S, K, E>>
    requires workers { 1 ≤ workers }
    requires count { count_of lock ≡ workers }
    requires passes { AreFresh lock workers note.now passes.items }
    requires vacant { note.now.out ≡ None }
    ensures tied { IsTied S.Source K.Sink E.Sink result.value (replicate workers note.now) }
{
    let shared = &lock;
    let each = |_: usize, pass: &mut Pass<Tied<S, K, E>>|
        requires { IsPassOf shared.now pass.now × (turn_of pass.now ≡ None)
            × IsNoted (λ note. note.out ≡ None) (note_of pass.now) }
        ensures { IsSamePass shared.entry.now pass.entry.now pass.exit.now × (turn_of pass.exit.now ≡ None)
            × (note_of pass.exit.now ≡ note_of pass.entry.now) }
    { carry(rt, shared, pass, gate) };
    thread::for_each_mut(rt, passes.as_mut_slice(), workers as usize, &each);
    lock.close(passes)
}

/// What a world leaves.
fn finished<S: Source, K: Sink, E: Sink>(world: Box<World<S, K, E>>) -> Ran<S, K, E>
    ensures ran { (notes : _) → IsTied S.Source K.Sink E.Sink world.value notes →
        IsRan S.Source K.Sink E.Sink world.value.begun result }
{
    Box::into_inner(world).finish()
}
