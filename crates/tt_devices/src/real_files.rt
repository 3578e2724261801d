ghost use Rattle.std.specs.Prelude.{◌≡◌, ◌≢◌, ◌≤◌, ◌^◌, ℕ, Err, None, Some, IfErr, IfOk, OnOk, OnErr, IsErrOf, vec_len};
ghost use Rattle.std.specs.IoError.{error_kind};
ghost use Rattle.tt_devices.specs.Faults.{Rises};
ghost use Rattle.tt_devices.specs.Names.{HasName, KeepsOthers, Tells};
ghost use Rattle.tt_devices.specs.inside.Reading.{IsLonger};

use crate::whole::{Unread, read_whole};
use crate::{Disk, Failed, Files, ReadAnswer, Sink};
use std::alloc::Global;
use std::io;
use std::io::ErrorKind;
use std::marker::Model;

/// The files of a disk, such as that of the system. They show their map if the disk does. Contracts see the disk, and
/// the counts of failed reads and writes.
#[derive(Drop)]
pub struct RealFiles<D: Disk + Drop> {
    disk: D,
    read_faults: u64,
    write_faults: u64,
}

impl<D: Disk + Drop> Model for RealFiles<D> {
    ghost use Rattle.std.specs.Prelude.{ℕ};

    ghost Value = { D × ℕ × ℕ };

    ghost view = { λ all. (all.disk, all.read_faults, all.write_faults) };
}

impl<D: Disk + Drop> RealFiles<D> {
    /// The files of this disk, with no fault yet.
    pub fn new(disk: D) -> Self
        ensures { result ≡ (disk, 0, 0) }
    {
        RealFiles {
            disk,
            read_faults: 0,
            write_faults: 0,
        }
    }
}

impl<D: Disk + Drop> Files for RealFiles<D> {
    ghost map = { λ all. D.map all.0 };

    ghost read_fault_count = { λ all. all.1 };

    ghost write_fault_count = { λ all. all.2 };

    fn read_faults(&self) -> u64 {
        self.read_faults
    }

    fn write_faults(&self) -> u64 {
        self.write_faults
    }

    /// The bytes under the name, of a file of at most 268,435,456 bytes. A longer one fails.
    fn read(&mut self, alloc: Global, name: &str) -> Result<Vec<u8>, ReadAnswer>
        ensures found { IfOk result (λ bytes. Tells (D.map self.old.0) name.now (Some bytes.items)) }
        ensures missing { IsErrOf result ReadAnswer.Missing → Tells (D.map self.old.0) name.now None }
        ensures not_missing { IsErrOf result ReadAnswer.Failed → HasName (D.map self.old.0) name.now }
        ensures same { D.map self.new.0 ≡ D.map self.old.0 }
        ensures cause { IsErrOf result ReadAnswer.Failed → Rises self.old.1 self.new.1 }
        ensures steady { (result ≢ Err ReadAnswer.Failed) → self.new.1 ≡ self.old.1 }
        ensures no_write { self.new.2 ≡ self.old.2 }
        ensures few { IfOk result (λ bytes. vec_len bytes ≤ 2 ^ 28) }
    {
        let answer = read_file(alloc, &mut self.disk, name);
        match answer {
            Ok(bytes) => Ok(bytes),
            Err(Unread::Missing) => Err(ReadAnswer::Missing),
            Err(Unread::NoMemory) => Err(ReadAnswer::NoMemory),
            Err(Unread::Failed | Unread::TooLong) => {
                self.read_faults = self.read_faults.saturating_add(1);
                Err(ReadAnswer::Failed)
            }
        }
    }

    fn write(&mut self, name: &str, bytes: &[u8]) -> Result<(), Failed> {
        let written = write_file(&mut self.disk, name, bytes);
        if written.is_err() {
            self.write_faults = self.write_faults.saturating_add(1);
        }
        written
    }
}

/// The bytes of a file. `TooLong` only if it has more than 268,435,456.
#[tactic(auto, using(crate::proofs::NameLemmas::read_named, crate::proofs::NameLemmas::held_named, crate::proofs::NameLemmas::read_longer))]
fn read_file<D: Disk>(alloc: Global, disk: &mut D, name: &str) -> Result<Vec<u8>, Unread>
    ensures found { IfOk result (λ bytes. Tells (D.map disk.old) name.now (Some bytes.items)) }
    ensures missing { IsErrOf result Unread.Missing → Tells (D.map disk.old) name.now None }
    ensures failed { IsErrOf result Unread.Failed → HasName (D.map disk.old) name.now }
    ensures too_long { IsErrOf result Unread.TooLong → IsLonger (D.map disk.old) name.now (2 ^ 28) }
    ensures same { D.map disk.new ≡ D.map disk.old }
    ensures few { IfOk result (λ bytes. vec_len bytes ≤ 2 ^ 28) }
{
    match disk.open(name) {
        Ok(mut reader) => read_whole(alloc, &mut reader),
        Err(error) => Err(open_answer(&error)),
    }
}

/// Why a file could not be opened.
fn open_answer(error: &io::Error) -> Unread
    ensures missing { result ≡ Unread.Missing → error_kind error.now ≡ ErrorKind.NotFound }
    ensures failed { result ≡ Unread.Failed → error_kind error.now ≢ ErrorKind.NotFound }
    ensures not_too_long { result ≢ Unread.TooLong }
{
    match error.kind() {
        ErrorKind::NotFound => Unread::Missing,
        ErrorKind::OutOfMemory => Unread::NoMemory,
        _ => Unread::Failed,
    }
}

/// Makes the file anew, of these bytes.
fn write_file<D: Disk>(disk: &mut D, name: &str, bytes: &[u8]) -> Result<(), Failed>
    ensures written { OnOk result (Tells (D.map disk.new) name.now (Some bytes.now)) }
    ensures others { KeepsOthers (D.map disk.old) (D.map disk.new) name.now }
{
    let mut writer = disk.create(name).map_err(|_| Failed)?;
    writer.put(bytes)?;
    disk.close(name, writer)
}
