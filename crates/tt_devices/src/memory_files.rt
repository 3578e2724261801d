ghost use Rattle.std.specs.Prelude.{◌≡◌, ◌≢◌, ◌⊎◌, ℕ, List, [], ◌<◌, length, true, false, Option, IfOk, IfSome};
ghost use Rattle.std.specs.Prelude.{IfNone, OnOk, OnErr, IsErrOf, IsErr, is_err, Some, None, Err};
ghost use Rattle.tt_devices.specs.Faults.{Rises};
ghost use Rattle.tt_devices.specs.Memory.{FailsNext, after_call, bytes_under, fresh_plan};
ghost use Rattle.tt_devices.specs.Names.{Tells, HasName, KeepsOthers};
ghost use Rattle.tt_devices.specs.inside.MemoryNames.{IsFirstNamed};

use crate::fault_plan::FaultPlan;
use crate::{Failed, Files, ReadAnswer};
use std::alloc::Global;
use std::marker::Model;
use tt_text::NoMemory;

/// A file in memory.
#[derive(Debug, Drop)]
struct NamedFile {
    name: Vec<u8>,
    bytes: Vec<u8>,
}

impl Model for NamedFile {
    ghost use Rattle.tt_devices.specs.Memory.{NamedBytes};

    ghost Value = { NamedBytes };

    ghost view = { λ file. record { name = file.name.items; bytes = file.bytes.items } };
}

/// Files in memory, which show their map. Its calls fail if its plans say so.
#[derive(Debug, Drop)]
pub struct MemoryFiles {
    files: Vec<NamedFile>,
    reads: FaultPlan,
    writes: FaultPlan,
    alloc: Global,
}

impl Model for MemoryFiles {
    ghost use Rattle.tt_devices.specs.Memory.{Shelf};

    ghost Value = { Shelf };

    ghost view = { λ all. record { files = all.files.items; reads = all.reads; writes = all.writes } };
}

impl MemoryFiles {
    /// No files. The reads and the writes whose numbers, each counted from 1, are in the lists fail, but for a read
    /// of a name that has no bytes.
    pub fn new(alloc: Global, fail_reads: Vec<u64>, fail_writes: Vec<u64>) -> Self
        ensures { result ≡ record {
          files = [];
          reads = fresh_plan fail_reads.items;
          writes = fresh_plan fail_writes.items;
        } }
    {
        MemoryFiles {
            files: Vec::new(alloc),
            reads: FaultPlan::new(fail_reads),
            writes: FaultPlan::new(fail_writes),
            alloc,
        }
    }

    /// Puts the bytes under the name, in place of those that were there. It counts as no call.
    ///
    /// `NoMemory` if memory for them is refused; then the map is as it was.
    pub fn add(&mut self, name: &str, bytes: &[u8]) -> Result<(), NoMemory>
        ensures added { OnOk result (bytes_under self.new.files name.now ≡ Some bytes.now) }
        ensures others { (other : List ℕ) →
            other ≢ name.now → bytes_under self.new.files other ≡ bytes_under self.old.files other }
        ensures unchanged { OnErr result (self.new.files ≡ self.old.files) }
        ensures plans { (self.new.reads ≡ self.old.reads) × (self.new.writes ≡ self.old.writes) }
    {
        put(self.alloc, &mut self.files, name.as_bytes(), bytes)
    }

    /// The bytes under the name, or `None` exactly if it has none.
    pub fn bytes(&self, name: &str) -> Option<&[u8]>
        ensures found { IfSome result (λ bytes. bytes_under self.now.files name.now ≡ Some bytes.now) }
        ensures none { IfNone result (bytes_under self.now.files name.now ≡ None) }
    {
        let place = place_of(&self.files, name.as_bytes())?;
        Some(self.files[place].bytes.as_slice())
    }
}

/// Where the first file of this name is.
fn place_of(files: &[NamedFile], name: &[u8]) -> Option<usize>
    ensures within { IfSome result (λ place. place < length files.now) }
    ensures first { IfSome result (IsFirstNamed files.now name.now) }
    ensures none { IfNone result (bytes_under files.now name.now ≡ None) }
{
    for (place, file) in files.iter().enumerate() {
        if file.name.as_slice() == name {
            return Some(place);
        }
    }
    None
}

/// Puts the bytes under the name.
fn put(alloc: Global, files: &mut Vec<NamedFile>, name: &[u8], bytes: &[u8]) -> Result<(), NoMemory>
    ensures added { OnOk result (bytes_under files.new.items name.now ≡ Some bytes.now) }
    ensures others { (other : List ℕ) →
        other ≢ name.now → bytes_under files.new.items other ≡ bytes_under files.old.items other }
    ensures unchanged { OnErr result (files.new.items ≡ files.old.items) }
{
    let bytes = Vec::from_slice(alloc, bytes)?;
    match place_of(files, name) {
        Some(place) => {
            let file = &mut files[place];
            file.bytes = bytes;
        }
        None => {
            let name = Vec::from_slice(alloc, name)?;
            files.push(NamedFile { name, bytes })?;
        }
    }
    Ok(())
}

impl Files for MemoryFiles {
    ghost map = { λ all. Some (bytes_under all.files) };

    ghost read_fault_count = { λ all. all.reads.faults };

    ghost write_fault_count = { λ all. all.writes.faults };

    fn read_faults(&self) -> u64 {
        self.reads.faults()
    }

    fn write_faults(&self) -> u64 {
        self.writes.faults()
    }

    fn read(&mut self, alloc: Global, name: &str) -> Result<Vec<u8>, ReadAnswer>
        ensures found { IfOk result (λ bytes. Tells (Some (bytes_under self.old.files)) name.now (Some bytes.items)) }
        ensures missing { IsErrOf result ReadAnswer.Missing → Tells (Some (bytes_under self.old.files)) name.now None }
        ensures not_missing { IsErrOf result ReadAnswer.Failed → HasName (Some (bytes_under self.old.files)) name.now }
        ensures same { Some (bytes_under self.new.files) ≡ Some (bytes_under self.old.files) }
        ensures cause { IsErrOf result ReadAnswer.Failed → Rises self.old.reads.faults self.new.reads.faults }
        ensures steady { (result ≢ Err ReadAnswer.Failed) → self.new.reads.faults ≡ self.old.reads.faults }
        ensures no_write { self.new.writes.faults ≡ self.old.writes.faults }

        // Which calls fail, and what that leaves.
        ensures planned { FailsNext self.old.reads →
            IsErrOf result ReadAnswer.Failed ⊎ IsErrOf result ReadAnswer.Missing }
        ensures not_planned { IsErrOf result ReadAnswer.Failed → FailsNext self.old.reads }
        ensures failed { IsErrOf result ReadAnswer.Failed → self.new.reads ≡ after_call self.old.reads true }
        ensures counted { (result ≢ Err ReadAnswer.Failed) → self.new.reads ≡ after_call self.old.reads false }
        ensures others { (self.new.files ≡ self.old.files) × (self.new.writes ≡ self.old.writes) }
    {
        let fails = self.reads.count_call();
        let Some(bytes) = self.bytes(name) else {
            return Err(ReadAnswer::Missing);
        };
        if fails {
            self.reads.count_fault();
            return Err(ReadAnswer::Failed);
        }
        Vec::from_slice(alloc, bytes).map_err(|_| ReadAnswer::NoMemory)
    }

    fn write(&mut self, name: &str, bytes: &[u8]) -> Result<(), Failed>
        ensures written { OnOk result (Tells (Some (bytes_under self.new.files)) name.now (Some bytes.now)) }
        ensures others { KeepsOthers (Some (bytes_under self.old.files)) (Some (bytes_under self.new.files)) name.now }
        ensures cause { OnErr result (Rises self.old.writes.faults self.new.writes.faults) }
        ensures steady { OnOk result (self.new.writes.faults ≡ self.old.writes.faults) }
        ensures no_read { self.new.reads.faults ≡ self.old.reads.faults }

        // Which calls fail, and what that leaves.
        ensures planned { FailsNext self.old.writes → IsErr result }
        ensures plan { self.new.writes ≡ after_call self.old.writes (is_err result) }
        ensures reads { self.new.reads ≡ self.old.reads }
        ensures unchanged { OnErr result (self.new.files ≡ self.old.files) }
    {
        if self.writes.count_call() {
            self.writes.count_fault();
            return Err(Failed);
        }
        if self.add(name, bytes).is_err() {
            self.writes.count_fault();
            return Err(Failed);
        }
        Ok(())
    }
}
