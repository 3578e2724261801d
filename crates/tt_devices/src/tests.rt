use crate::{
    Clock, Failed, Files, MemoryDisk, MemoryFiles, ReadAnswer, RealFiles, Sink, Source, StdClock,
    StdSink, StdSource, StepClock, SystemDisk,
};
use std::io::{ErrorKind, Read, Write};
use std::test::Fail;
use std::{fs, io};

#[test]
fn real_files_are_written_read_and_missed(rt: HostRuntime) -> Result<(), Fail> {
    let mut files = RealFiles::new(SystemDisk::new(&rt));
    let name = "tt_devices_test.txt";
    assert_eq!(rt; files.write(name, b"one"), Ok(()));
    let bytes = files.read(rt.alloc(), name);
    assert_eq!(rt; bytes.as_ref().map(|bytes| bytes.len()).ok(), Some(3));
    assert_eq!(rt;
        files.read(rt.alloc(), "no such file").err(),
        Some(ReadAnswer::Missing)
    );
    assert_eq!(rt; files.read(rt.alloc(), ".").err(), Some(ReadAnswer::Failed));
    assert_eq!(rt; files.read_faults(), 1);
    fs::remove_file(&rt, name)?;
    Ok(())
}

#[test]
fn files_of_a_disk_in_memory_are_written_read_and_missed(rt: HostRuntime) -> Result<(), Fail> {
    let alloc = rt.alloc();
    let shelf = MemoryFiles::new(alloc, Vec::new(alloc), Vec::new(alloc));
    let mut files = RealFiles::new(MemoryDisk::new(alloc, shelf));
    assert_eq!(rt; files.read(alloc, "f").err(), Some(ReadAnswer::Missing));
    assert_eq!(rt; files.write("f", b"one"), Ok(()));
    let found = files.read(alloc, "f");
    assert_eq!(rt;
        found.as_ref().map(|found| found.as_slice()).ok(),
        Some(b"one".as_slice())
    );
    Ok(())
}

/// What a call of a stream does.
#[derive(Clone, Copy)]
enum Call {
    /// It moves at most so many bytes.
    Moves(usize),
    /// A signal cuts it short.
    Interrupted,
    /// It fails.
    Fails,
}

/// A stream that does in each call what its list says, and fails at the end of the list.
#[derive(Drop)]
struct Halting<'a> {
    calls: &'a [Call],
    place: usize,
    bytes: Vec<u8>,
}

impl Halting<'_> {
    /// How many bytes of so many the next call moves.
    fn moves(&mut self, most: usize) -> io::Result<usize> {
        let call = self.calls.get(self.place).copied();
        self.place = self.place.saturating_add(1);
        match call {
            Some(Call::Moves(count)) => Ok(count.min(most)),
            Some(Call::Interrupted) => Err(io::Error::from(ErrorKind::Interrupted)),
            _ => Err(io::Error::from(ErrorKind::BrokenPipe)),
        }
    }
}

impl Write for Halting<'_> {
    fn write(&mut self, buf: &[u8]) -> io::Result<usize> {
        let count = self.moves(buf.len())?;
        let (moved, _) = buf.split_at(count.min(buf.len()));
        self.bytes.extend_from_slice(moved)?;
        Ok(moved.len())
    }

    fn flush(&mut self) -> io::Result<()> {
        Ok(())
    }
}

impl Read for Halting<'_> {
    fn read(&mut self, buf: &mut [u8]) -> io::Result<usize> {
        let count = self.moves(buf.len())?.min(buf.len());
        buf[..count].fill(7);
        Ok(count)
    }
}

#[test]
fn a_writer_is_asked_again_until_it_takes_nothing_or_fails(rt: HostRuntime) -> Result<(), Fail> {
    use Call::{Fails, Interrupted, Moves};
    let rows: [(&[Call], Result<(), Failed>, &[u8]); 5] = [
        (&[Moves(1), Moves(1), Moves(1)], Ok(()), b"abc"),
        (&[Moves(1), Interrupted, Moves(2)], Ok(()), b"abc"),
        (&[Moves(2), Moves(0)], Err(Failed), b"ab"),
        (&[Moves(1), Fails], Err(Failed), b"a"),
        (&[Fails], Err(Failed), b""),
    ];
    for (calls, answer, got) in rows {
        let mut writer = Halting {
            calls,
            place: 0,
            bytes: Vec::new(rt.alloc()),
        };
        let mut sink = StdSink::new(&mut writer);
        assert_eq!(rt; sink.put(b"abc"), answer);
        assert_eq!(rt; sink.faults(), u64::from(answer.is_err()));
        assert_eq!(rt; writer.bytes.as_slice(), got);
    }
    Ok(())
}

#[test]
fn a_reader_is_asked_again_if_it_was_interrupted(rt: HostRuntime) {
    use Call::{Fails, Interrupted, Moves};
    let rows: [(&[Call], Result<usize, Failed>); 3] = [
        (&[Interrupted, Interrupted, Moves(1)], Ok(1)),
        (&[Moves(0)], Ok(0)),
        (&[Interrupted, Fails], Err(Failed)),
    ];
    for (calls, answer) in rows {
        let mut source = StdSource::new(Halting {
            calls,
            place: 0,
            bytes: Vec::new(rt.alloc()),
        });
        assert_eq!(rt; source.take(&mut [0u8; 2]), answer);
        assert_eq!(rt; source.faults(), u64::from(answer.is_err()));
    }
}

#[test]
fn a_step_clock_counts_up_to_the_greatest_number(rt: HostRuntime) -> Result<(), Fail> {
    let clock = StepClock::new(1 << 63);
    clock.wait(7);
    assert_eq!(rt; clock.now(), 1 << 63);
    assert_eq!(rt; clock.now(), u64::MAX);
    assert_eq!(rt; clock.now(), u64::MAX);
    let still = StepClock::new(0);
    assert_eq!(rt; still.now(), 0);
    Ok(())
}

#[test]
fn the_clock_of_the_system_has_passed_what_it_waited_for(rt: HostRuntime) -> Result<(), Fail> {
    let clock = StdClock::new(&rt);
    let moment = clock.now().saturating_add(2);
    clock.wait(moment);
    assert!(rt; clock.now().saturating_add(1) >= moment);
    clock.wait(0);
    Ok(())
}
