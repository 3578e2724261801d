//! A small language on the plans of `tt_evaluation`: the jobs of a few lines are evaluated, with numbers given in turn.
//! It prints what each wants, what it is given, and what it comes to; and the same in a host of `tt_hosting`, which
//! takes what is delivered.
#![tactic(auto)]

mod deliveries;
mod language;
mod laws;

use deliveries::Delivering;
use language::{Greatest, Job, Want};
use std::alloc::Global;
use std::io::Print;
use tt_evaluation::{STEPS, Stack, is_waiting, outcome, request, resume, start};
use tt_hosting::{Reached, begin, turn};

fn main(rt: HostRuntime) -> anyhow::Result<()> {
    laws::worked_plans();
    let alloc = rt.alloc();
    print_job(&rt, alloc, Job::Greatest(1), 2, &[1])?;
    print_job(&rt, alloc, Job::Nested(3, 5, 2), 0, &[4, 7, 0])?;
    print_hosted(&rt, alloc, Job::Nested(3, 5, 2), 0, &[4, 7])
}

// A job, begun with a state, is given these numbers in turn.
fn print_job(
    rt: &impl Print,
    alloc: Global,
    job: Job,
    state: u64,
    numbers: &[u64],
) -> anyhow::Result<()> {
    println!(rt; "{job:?} from {state}")?;
    let mut machine = start::<Greatest>(alloc, job, state)?;
    for number in numbers {
        let Some(want) = request::<Greatest>(&machine) else {
            break;
        };
        print_want(rt, *want)?;
        println!(rt; "  gets {number}")?;
        resume::<Greatest>(alloc, &mut machine, *number)?;
    }
    if let Some(outcome) = outcome::<Greatest>(&machine) {
        println!(rt; "  comes to {outcome}")?;
    }
    Ok(())
}

fn print_want(rt: &impl Print, want: Want) -> anyhow::Result<()> {
    match want {
        Want::Number => println!(rt; "  wants a number")?,
        Want::Deliver(number) => println!(rt; "  wants {number} to be delivered")?,
    }
    Ok(())
}

// A job is begun in a host that takes what is delivered, and is given these numbers in turn.
fn print_hosted(
    rt: &impl Print,
    alloc: Global,
    job: Job,
    state: u64,
    numbers: &[u64],
) -> anyhow::Result<()> {
    println!(rt; "{job:?} from {state}, with a host")?;
    let mut last = None;
    let mut stack = Stack {
        state,
        steps: STEPS,
        calls: Vec::new(alloc),
        asking: None,
    };
    let mut reached = begin::<Greatest, Delivering>(alloc, &mut last, &mut stack, job)?;
    for number in numbers {
        if !is_waiting(&stack) {
            break;
        }
        println!(rt; "  wants a number, and gets {number}")?;
        reached = turn::<Greatest, Delivering>(alloc, &mut last, &mut stack, *number)?;
    }
    if let (Reached::Over(outcome), Some(number)) = (reached, last) {
        println!(rt; "  comes to {outcome}, and {number} was delivered last")?;
    }
    Ok(())
}
