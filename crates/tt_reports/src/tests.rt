use crate::{Waiting, races_text, waits_text};
use std::alloc::Global;
use std::test::Fail;
use tt_before::{Race, Races};
use tt_text::Text;

fn waiting(alloc: Global, thread: u32, others: &[u32]) -> Result<Waiting, Fail> {
    let mut list = Vec::new(alloc);
    for other in others {
        list.push(*other)?;
    }
    Ok(Waiting {
        thread,
        others: list,
    })
}

#[test]
fn the_caught_have_a_line(rt: HostRuntime) -> Result<(), Fail> {
    let alloc = rt.alloc();
    let mut all = Vec::new(alloc);
    all.push(waiting(alloc, 1, &[])?)?;
    all.push(waiting(alloc, 2, &[3, 10])?)?;
    all.push(waiting(alloc, 3, &[2])?)?;
    let text = waits_text(alloc, all.as_slice())?;
    let wanted =
        b"tid1 waits\ntid2 waits for tid3 tid10\ntid3 waits for tid2\ndeadlock tid2 tid3\n";
    assert_eq!(rt; text.as_bytes(), wanted.as_slice());
    Ok(())
}

#[test]
fn nobody_waits_in_an_empty_text(rt: HostRuntime) -> Result<(), Fail> {
    let text = waits_text(rt.alloc(), &[])?;
    assert!(rt; text.is_empty());
    Ok(())
}

#[test]
fn a_race_has_a_line(rt: HostRuntime) -> Result<(), Fail> {
    let alloc = rt.alloc();
    let mut first = Vec::new(alloc);
    first.push(Race {
        first: 2,
        second: 13,
        array: Text::from_bytes(alloc, b"a b")?,
        key: None,
    })?;
    first.push(Race {
        first: 3,
        second: 13,
        array: Text::from_bytes(alloc, b"#a")?,
        key: Some(Text::new(alloc)),
    })?;
    let text = races_text(alloc, &Races { first, count: 102 })?;
    let wanted = b"race 2 13 {a b} *\nrace 3 13 {#a} {}\nraces 102\n";
    assert_eq!(rt; text.as_bytes(), wanted.as_slice());
    Ok(())
}
