ghost use Rattle.std.specs.Prelude.{◌<◌};

use crate::{Order, Races};
use std::alloc::Global;
use std::test::Fail;
use tt_calls::{Boxed, LockCall, Reply, Request, TsvCall};
use tt_text::{Text, Texts};

/// A step of a thread in a test.
#[derive(Clone, Copy)]
enum Deed {
    /// A write of the element `x` of the array `a`.
    Write(u32),
    /// A mutex is taken.
    Lock(u32),
    /// It is given up.
    Unlock(u32),
    /// A thread begins to wait for another's end, and it has ended.
    Await(u32, u32),
    /// A thread ends.
    End(u32),
    Tick,
}

fn write(alloc: Global) -> Result<Request, Fail> {
    let mut words = Texts::new(alloc);
    words.push(Text::from_bytes(alloc, b"tsv::incr")?)?;
    words.push(Text::from_bytes(alloc, b"a")?)?;
    words.push(Text::from_bytes(alloc, b"x")?)?;
    let call = Boxed::new(alloc, TsvCall::Run { words })?;
    Ok(Request::Tsv(call))
}

fn lock(alloc: Global, call: LockCall) -> Result<Request, Fail> {
    let call = Boxed::new(alloc, call)?;
    Ok(Request::Lock(call))
}

/// What a thread asks.
fn request(alloc: Global, deed: Deed) -> Result<Request, Fail> {
    let id = Text::from_bytes(alloc, b"mid1")?;
    match deed {
        Deed::Write(_) | Deed::Tick => write(alloc),
        Deed::Lock(_) => lock(alloc, LockCall::Lock { id }),
        Deed::Unlock(_) => lock(alloc, LockCall::Notify { id }),
        Deed::Await(_, thread) => Ok(Request::AwaitEnd { thread }),
        Deed::End(_) => Ok(Request::End { code: 0 }),
    }
}

fn thread_of(deed: Deed) -> u32 {
    match deed {
        Deed::Write(thread)
        | Deed::Lock(thread)
        | Deed::Unlock(thread)
        | Deed::Await(thread, _)
        | Deed::End(thread) => thread,
        Deed::Tick => 0,
    }
}

fn step(alloc: Global, order: &mut Order, deed: Deed) -> Result<(), Fail>
    requires { order.old.count < 10000 }
{
    let request = request(alloc, deed)?;
    order.add(thread_of(deed), &request, &Reply::Go, 0)?;
    Ok(())
}

fn add(alloc: Global, order: &mut Order, deed: Deed) -> Result<(), Fail> {
    if order.len() >= 10_000 {
        return Ok(());
    }
    match deed {
        Deed::Tick => {
            order.add_tick();
            Ok(())
        }
        deed => step(alloc, order, deed),
    }
}

/// The races of a run of these steps.
fn races(alloc: Global, deeds: &[Deed]) -> Result<Races, Fail> {
    let mut order = Order::new(alloc);
    for deed in deeds {
        add(alloc, &mut order, *deed)?;
    }
    let races = order.races()?;
    Ok(races)
}

/// How many races are told, and how many there are.
fn counts(alloc: Global, deeds: &[Deed]) -> Result<(usize, u64), Fail> {
    let races = races(alloc, deeds)?;
    Ok((races.first.len(), races.count))
}

#[test]
fn two_writes_race_and_ticks_count(rt: HostRuntime) -> Result<(), Fail> {
    let alloc = rt.alloc();
    let races = races(
        alloc,
        &[Deed::Tick, Deed::Write(1), Deed::Tick, Deed::Write(2)],
    )?;
    let first = races.first.first().map(|race| (race.first, race.second));
    assert_eq!(rt; first, Some((2, 4)));
    Ok(())
}

#[test]
fn an_end_is_before_who_waited_for_it(rt: HostRuntime) -> Result<(), Fail> {
    let deeds = [
        Deed::Write(2),
        Deed::End(2),
        Deed::Await(1, 2),
        Deed::Write(1),
    ];
    assert_eq!(rt; counts(rt.alloc(), &deeds)?, (0, 0));
    Ok(())
}

#[test]
fn a_lock_orders(rt: HostRuntime) -> Result<(), Fail> {
    let deeds = [
        Deed::Write(1),
        Deed::Unlock(1),
        Deed::Lock(2),
        Deed::Write(2),
        Deed::Write(3),
    ];
    assert_eq!(rt; counts(rt.alloc(), &deeds)?, (2, 2));
    Ok(())
}

#[test]
fn a_hundred_are_told_and_all_are_counted(rt: HostRuntime) -> Result<(), Fail> {
    let alloc = rt.alloc();
    let mut deeds = Vec::new(alloc);
    for _ in 0..10u32 {
        deeds.push(Deed::Write(1))?;
    }
    for _ in 0..10u32 {
        deeds.push(Deed::Write(2))?;
    }
    assert_eq!(rt; counts(alloc, deeds.as_slice())?, (100, 100));
    deeds.push(Deed::Write(1))?;
    assert_eq!(rt; counts(alloc, deeds.as_slice())?, (100, 110));
    Ok(())
}
