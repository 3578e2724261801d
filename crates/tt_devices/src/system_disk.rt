ghost use Rattle.std.specs.Prelude.{None};

use crate::{Disk, Failed, StdSink, StdSource};
use std::rt::Files as FileSystem;
use std::{fs, io};

/// The disk of the system, which doesn't show its map.
#[derive(Drop)]
pub struct SystemDisk<R: FileSystem + Drop> {
    system: R,
}

impl<R: FileSystem + Drop> SystemDisk<R> {
    /// The disk of this system.
    pub fn new(system: R) -> Self {
        SystemDisk { system }
    }
}

impl<R: FileSystem + Drop> Disk for SystemDisk<R> {
    type Reader = StdSource<R::File>;

    type Writer = StdSink<R::File>;

    ghost map = { λ _. None };

    fn open(&mut self, name: &str) -> io::Result<StdSource<R::File>> {
        let file = fs::open(&self.system, name)?;
        Ok(StdSource::new(file))
    }

    fn create(&mut self, name: &str) -> io::Result<StdSink<R::File>> {
        let file = fs::create(&self.system, name)?;
        Ok(StdSink::new(file))
    }

    fn close(&mut self, _name: &str, _writer: StdSink<R::File>) -> Result<(), Failed> {
        Ok(())
    }
}
