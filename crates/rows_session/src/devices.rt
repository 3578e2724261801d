//! Devices whose counts of faults may be at their greatest.
ghost use Rattle.std.specs.Prelude.{◌≡◌, ◌≢◌, ◌≤◌, length, Some, None, Err, IfOk, OnOk, OnErr, IsErrOf};
ghost use Rattle.tt_devices.specs.Faults.{Rises};
ghost use Rattle.tt_devices.specs.Names.{HasName, KeepsOthers, Tells};
ghost use Rattle.tt_devices.specs.Streams.{Fills, Grows, GrowsByPart, Stays};
ghost use Rattle.rows_session.specs.Counting.{count_of, of_device};

use std::alloc::Global;
use tt_devices::{Failed, Files, ReadAnswer, Sink, Source};

/// A device.
#[derive(Drop)]
pub(crate) enum Counted<D: Drop> {
    /// It counts its faults.
    FromZero(D),
    /// Its counts are at their greatest, and stay there.
    AtGreatest(D),
}

impl<D: Drop> Counted<D> {
    /// The device.
    pub(crate) fn device(&self) -> &D {
        match self {
            Counted::FromZero(device) => device,
            Counted::AtGreatest(device) => device,
        }
    }
}

impl<S: Source + Drop> Source for Counted<S> {
    ghost held = { λ counted. of_device S.held counted };

    ghost fault_count = { λ counted. count_of S.fault_count counted };

    fn faults(&self) -> u64 {
        match self {
            Counted::FromZero(source) => source.faults(),
            Counted::AtGreatest(_) => u64::MAX,
        }
    }

    fn take(&mut self, room: &mut [u8]) -> Result<usize, Failed> {
        match self {
            Counted::FromZero(source) => source.take(room),
            Counted::AtGreatest(source) => source.take(room),
        }
    }
}

impl<K: Sink + Drop> Sink for Counted<K> {
    ghost got = { λ counted. of_device K.got counted };

    ghost fault_count = { λ counted. count_of K.fault_count counted };

    fn faults(&self) -> u64 {
        match self {
            Counted::FromZero(sink) => sink.faults(),
            Counted::AtGreatest(_) => u64::MAX,
        }
    }

    fn put(&mut self, piece: &[u8]) -> Result<(), Failed> {
        match self {
            Counted::FromZero(sink) => sink.put(piece),
            Counted::AtGreatest(sink) => sink.put(piece),
        }
    }
}

impl<F: Files + Drop> Files for Counted<F> {
    ghost map = { λ counted. of_device F.map counted };

    ghost read_fault_count = { λ counted. count_of F.read_fault_count counted };

    ghost write_fault_count = { λ counted. count_of F.write_fault_count counted };

    fn read_faults(&self) -> u64 {
        match self {
            Counted::FromZero(files) => files.read_faults(),
            Counted::AtGreatest(_) => u64::MAX,
        }
    }

    fn write_faults(&self) -> u64 {
        match self {
            Counted::FromZero(files) => files.write_faults(),
            Counted::AtGreatest(_) => u64::MAX,
        }
    }

    fn read(&mut self, alloc: Global, name: &str) -> Result<Vec<u8>, ReadAnswer> {
        match self {
            Counted::FromZero(files) => files.read(alloc, name),
            Counted::AtGreatest(files) => files.read(alloc, name),
        }
    }

    fn write(&mut self, name: &str, bytes: &[u8]) -> Result<(), Failed> {
        match self {
            Counted::FromZero(files) => files.write(name, bytes),
            Counted::AtGreatest(files) => files.write(name, bytes),
        }
    }
}
