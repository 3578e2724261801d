use crate::{TimerKind, Timers};
use std::test::Fail;
use tt_text::Text;

#[test]
fn the_least_moment_is_that_of_the_one_timer(rt: HostRuntime) -> Result<(), Fail> {
    let mut timers = Timers::new(rt.alloc());
    assert_eq!(rt; timers.add(1, 10, TimerKind::Sleep).ok(), Some(1));
    assert_eq!(rt; timers.least(), Some(10));
    Ok(())
}

#[test]
fn each_call_on_two_threads(rt: HostRuntime) -> Result<(), Fail> {
    let alloc = rt.alloc();
    let mut timers = Timers::new(alloc);
    timers.add(2, 20, TimerKind::Script(Text::from_bytes(alloc, b"late")?))?;
    timers.add(2, 10, TimerKind::Condition)?;
    timers.add(1, 10, TimerKind::Sleep)?;
    assert_eq!(rt; timers.next(), 4);
    assert!(rt; timers.sleeping(1) && !timers.sleeping(2));
    assert!(rt; timers.take_due(9).is_none());
    assert_eq!(rt; timers.take_due(10).map(|due| due.number), Some(2));
    timers.drop_wait(1);
    assert!(rt; !timers.sleeping(1));
    assert!(rt; !timers.drop_script(1, 1));
    assert!(rt; timers.drop_script(2, 1));
    timers.add(1, 30, TimerKind::Sleep)?;
    timers.end(1);
    assert_eq!(rt; timers.least(), None);
    Ok(())
}
