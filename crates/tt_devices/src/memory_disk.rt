ghost use Rattle.std.specs.Prelude.{Some};
ghost use Rattle.tt_devices.specs.Memory.{bytes_under};

use crate::{Disk, Failed, MemoryFiles, MemorySink, MemorySource};
use std::alloc::Global;
use std::io;
use std::io::ErrorKind;

/// A disk in memory, which shows its map. Its calls fail only for want of memory.
#[derive(Debug, Drop)]
pub struct MemoryDisk {
    alloc: Global,
    files: MemoryFiles,
}

impl MemoryDisk {
    /// A disk of these files.
    pub fn new(alloc: Global, files: MemoryFiles) -> Self {
        MemoryDisk { alloc, files }
    }
}

impl Disk for MemoryDisk {
    type Reader = MemorySource;

    type Writer = MemorySink;

    ghost map = { λ disk. Some (bytes_under disk.files.files) };

    fn open(&mut self, name: &str) -> io::Result<MemorySource> {
        let Some(bytes) = self.files.bytes(name) else {
            return Err(io::Error::from(ErrorKind::NotFound));
        };
        match Vec::from_slice(self.alloc, bytes) {
            Ok(bytes) => Ok(MemorySource::new(bytes, Vec::new(self.alloc))),
            Err(_) => Err(io::Error::from(ErrorKind::OutOfMemory)),
        }
    }

    fn create(&mut self, _name: &str) -> io::Result<MemorySink> {
        Ok(MemorySink::new(self.alloc, Vec::new(self.alloc)))
    }

    fn close(&mut self, name: &str, writer: MemorySink) -> Result<(), Failed> {
        self.files.add(name, writer.bytes()).map_err(|_| Failed)
    }
}
