//! A host of the language, which takes what is delivered: numbers alone are asked outside.

use crate::language::{Asking, Frame, Greatest, Job, Want};
use std::alloc::Global;
use tt_evaluation::{Language, Move, Stack};
use tt_hosting::{Answered, Hosted};
use tt_text::NoMemory;

/// The language in a host that keeps the last number that was delivered.
pub struct Delivering;

impl Hosted<Greatest> for Delivering {
    type Host = Option<u64>;

    type Request = ();

    ghost use Rattle.example_language.specs.Deliveries.{LeadsOn, number_wanted};
    ghost use Rattle.example_language.specs.DeliveriesLaws.{leads_further, leads_same};

    ghost wanted = { number_wanted };

    ghost leads = { LeadsOn };

    fn begin_job(
        alloc: Global,
        _host: &mut Option<u64>,
        stack: &mut Stack<u64, Frame, Asking>,
        job: Job,
    ) -> Result<Move<Job, Want, u64, Frame, Asking>, NoMemory> {
        let next = Greatest::begin(alloc, job, &mut stack.state)?;
        Ok(next)
    }

    fn end_call(
        alloc: Global,
        _host: &mut Option<u64>,
        stack: &mut Stack<u64, Frame, Asking>,
        frame: Frame,
        outcome: u64,
    ) -> Result<Move<Job, Want, u64, Frame, Asking>, NoMemory> {
        let next = Greatest::go_on(alloc, frame, outcome, &mut stack.state)?;
        Ok(next)
    }

    fn give(
        alloc: Global,
        _host: &mut Option<u64>,
        stack: &mut Stack<u64, Frame, Asking>,
        asking: Asking,
        got: u64,
    ) -> Result<Move<Job, Want, u64, Frame, Asking>, NoMemory> {
        let next = Greatest::take(alloc, asking, got, &mut stack.state)?;
        Ok(next)
    }

    fn answer(
        _alloc: Global,
        host: &mut Option<u64>,
        want: Want,
    ) -> Result<Answered<u64, ()>, NoMemory> {
        match want {
            Want::Number => Ok(Answered::Outside(())),
            Want::Deliver(number) => {
                *host = Some(number);
                Ok(Answered::Got(0))
            }
        }
    }

    ghost same = { leads_same };

    ghost further = { leads_further };
}
