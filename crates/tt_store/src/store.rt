ghost use Rattle.std.specs.Prelude.{◌≡◌, IfOk, OnOk, OnErr};
ghost use Rattle.std.specs.Option.{option_copied};
ghost use Rattle.tt_store.specs.Held as held;
ghost use Rattle.tt_store.specs.Spots as spots;

use crate::messages::{cannot_read, cannot_set};
use crate::nesting::Nesting;
use crate::rereads::Rereads;
use crate::spot::{Spot, full_name, spot_named, spot_of};
use crate::watch::{Watch, mark};
use std::alloc::Global;
use std::marker::Model;
use tt_calls::Outcome;
use tt_text::{NoMemory, Text};
use tt_value::Value;
use tt_vars::{VarFault, Written};

/// What one interpreter keeps of variables: the frames, levels and watches. Contracts see them as one record.
#[derive(Debug, Drop)]
pub struct Store {
    pub(crate) nesting: Nesting,
    pub(crate) watches: Vec<Watch>,
    pub(crate) alloc: Global,
    rereads: Rereads,
}

impl Model for Store {
    ghost use Rattle.tt_store.specs.Held.{Held};

    ghost Value = { Held };

    ghost view = { λ store. record { levels = store.nesting; watches = store.watches.items } };
}

impl Store {
    /// The global frame alone, with no variables.
    ///
    /// `NoMemory` if memory for it is refused.
    pub fn new(alloc: Global) -> Result<Self, NoMemory>
        ensures nothing { IfOk result (λ store. store ≡ held.nothing_held) }
    {
        let nesting = Nesting::new(alloc)?;
        Ok(Store {
            nesting,
            watches: Vec::new(alloc),
            alloc,
            rereads: Rereads::new(),
        })
    }

    /// What `$name` and `$name(index)` give (Tcl(n)): the value, or the error of reading. A name with a leading `::` is
    /// that of the global variable of the rest. A long text that is read again and again is kept as a list, if it is
    /// one.
    ///
    /// `NoMemory` if memory is refused.
    pub fn read(&mut self, name: &[u8], index: Option<&[u8]>) -> Result<Outcome, NoMemory>
        ensures read { IfOk result (held.IsRead self.old name.now (option_copied index.entry)) }
        ensures same { self.new ≡ self.old }
    {
        let spot = spot_named(self.alloc, name, index)?;
        let found = self.find(&spot)?;
        self.read_again(&spot, &found);
        let outcome = value_named(self.alloc, name, index, found)?;
        Ok(outcome)
    }

    // What was read at a spot is kept as a list, if that is due.
    fn read_again(&mut self, spot: &Spot, found: &Result<Value, VarFault>)
        ensures same { self.new ≡ self.old }
    {
        if let Some(text) = long_text(self.alloc, found) {
            if self.rereads.is_due(spot, text.len()) && has_white_front(text.as_bytes()) {
                self.nesting.keep_items(spot);
            }
        }
    }

    /// Gives a value to the same (set(n)): the value, or the error of setting; then nothing has changed.
    ///
    /// `NoMemory` if memory is refused.
    pub fn write(
        &mut self,
        name: &[u8],
        index: Option<&[u8]>,
        value: Value,
    ) -> Result<Outcome, NoMemory>
        ensures written { IfOk result (λ outcome.
            held.IsWritten self.old name.now (option_copied index.entry) value outcome self.new) }
    {
        let spot = spot_named(self.alloc, name, index)?;
        let result = value.copy()?;
        let written = self.set_spot(&spot, value)?;
        let outcome = stored_named(self.alloc, name, index, result, written)?;
        Ok(outcome)
    }

    /// A script at global level begins (uplevel(n), vwait(n)); `leave` ends it.
    ///
    /// `NoMemory` if memory is refused; then nothing has changed.
    pub fn enter(&mut self) -> Result<(), NoMemory>
        ensures entered { OnOk result (self.new ≡ held.with_global_script self.old) }
        ensures unchanged { OnErr result (self.new ≡ self.old) }
    {
        self.nesting.begin_global()
    }

    /// What was begun last has ended (proc(n), uplevel(n), eval(n)): a procedure's body, whose frame is gone then, a
    /// body of eval(n) or uplevel(n), or a script at global level. The frame is current that was so before. If
    /// nothing was begun nothing changes.
    pub fn leave(&mut self)
        ensures ended { self.new ≡ held.after_end self.old }
    {
        self.nesting.leave();
    }

    /// A wait for a global variable begins (vwait(n)); a leading `::` of its name is dropped once.
    ///
    /// `NoMemory` if memory is refused; then nothing has changed.
    pub fn watch(&mut self, name: &[u8]) -> Result<(), NoMemory>
        ensures watched { OnOk result (self.new ≡ held.with_watch name.now self.old) }
        ensures unchanged { OnErr result (self.new ≡ self.old) }
    {
        let Spot { name, index, .. } = spot_of(self.alloc, name)?;
        self.watches.push(Watch {
            name,
            index,
            seen: false,
        })?;
        Ok(())
    }

    /// Whether the variable of the innermost wait was written since it began: the scalar or the element that its name
    /// stands for after its links, by whatever name. False if there is none.
    pub fn seen(&self) -> bool
        ensures seen { result ≡ held.is_seen self.now }
    {
        match self.watches.get(self.watches.len().saturating_sub(1)) {
            Some(watch) => watch.seen,
            None => false,
        }
    }

    /// The innermost wait has ended. If there is none nothing changes.
    pub fn unwatch(&mut self)
        ensures unwatched { self.new ≡ held.without_watch self.old }
    {
        drop(self.watches.pop());
    }

    /// The value of what a spot stands for.
    pub(crate) fn find(&self, spot: &Spot) -> Result<Result<Value, VarFault>, NoMemory>
        ensures { IfOk result (held.Finds self.now spot.now) }
    {
        match self.nesting.read(spot) {
            Ok(value) => Ok(Ok(value.copy()?)),
            Err(fault) => Ok(Err(fault)),
        }
    }

    /// Writes a value to what a spot stands for.
    pub(crate) fn set_spot(&mut self, spot: &Spot, value: Value) -> Result<Written, NoMemory>
        ensures { IfOk result (held.Sets self.old spot.now value self.new) }
    {
        if value.is_long_text() {
            self.rereads.forget(spot);
        }
        let written = self.nesting.write(spot, value)?;
        if let Written::Yes = written {
            self.mark_written(spot);
        }
        Ok(written)
    }

    /// The watches see that what a spot stands for was written.
    pub(crate) fn mark_written(&mut self, spot: &Spot)
        ensures marked { held.AreMarked self.old.levels.frames (held.place self.old spot.now) self.old.watches
            self.new.watches }
        ensures rest { self.new.levels ≡ self.old.levels }
    {
        mark(&self.nesting, spot, self.watches.as_mut_slice());
    }

    /// What a command's word names is read.
    pub(crate) fn read_word(&self, word: &Text) -> Result<Outcome, NoMemory>
        ensures { IfOk result (held.ReadsWord word.now self.now) }
    {
        let spot = spot_of(self.alloc, word.as_bytes())?;
        let found = self.find(&spot)?;
        let outcome = value_of(self.alloc, word, found)?;
        Ok(outcome)
    }

    /// A value is given to it.
    pub(crate) fn give(&mut self, word: &Text, value: Value) -> Result<Outcome, NoMemory>
        ensures { IfOk result (λ outcome. held.Gives word.now value self.old outcome self.new) }
    {
        let spot = spot_of(self.alloc, word.as_bytes())?;
        let result = value.copy()?;
        let written = self.set_spot(&spot, value)?;
        let outcome = stored(self.alloc, word, result, written)?;
        Ok(outcome)
    }

    /// The words are too few or too many.
    pub(crate) fn refuse(&self, usage: &[u8]) -> Result<Outcome, NoMemory>
        ensures { IfOk result (λ outcome. held.Refuses usage.now self.now outcome self.now) }
    {
        let outcome = Outcome::wrong_number(self.alloc, usage)?;
        Ok(outcome)
    }
}

// How many bytes of a text are looked at for white space.
const FRONT: usize = 1 << 16;

// The long text that was found, if it can be shared.
fn long_text(alloc: Global, found: &Result<Value, VarFault>) -> Option<Text> {
    match found {
        Ok(value) if value.is_long_text() => value.to_text(alloc).ok(),
        _ => None,
    }
}

// Whether a text may be a list of many items.
fn has_white_front(text: &[u8]) -> bool {
    text.iter().take(FRONT).any(u8::is_ascii_whitespace)
}

// What reading a name gives. The name is spelled for an error alone.
fn value_named(
    alloc: Global,
    name: &[u8],
    index: Option<&[u8]>,
    found: Result<Value, VarFault>,
) -> Result<Outcome, NoMemory>
    ensures { IfOk result (λ outcome.
        outcome ≡ held.value_of (spots.full_name name.now (option_copied index.entry)) found) }
{
    match found {
        Ok(value) => Ok(Outcome::with_result(alloc, value)),
        Err(fault) => {
            let word = full_name(alloc, name, index)?;
            let outcome = value_of(alloc, &word, Err(fault))?;
            Ok(outcome)
        }
    }
}

fn value_of(alloc: Global, word: &Text, found: Result<Value, VarFault>) -> Result<Outcome, NoMemory>
    ensures { IfOk result (λ outcome. outcome ≡ held.value_of word.now found) }
{
    match found {
        Ok(value) => Ok(Outcome::with_result(alloc, value)),
        Err(fault) => {
            let message = cannot_read(alloc, word.as_bytes(), fault)?;
            let outcome = Outcome::failed(message)?;
            Ok(outcome)
        }
    }
}

// What writing to it gives, likewise.
fn stored_named(
    alloc: Global,
    name: &[u8],
    index: Option<&[u8]>,
    value: Value,
    written: Written,
) -> Result<Outcome, NoMemory>
    ensures { IfOk result (λ outcome.
        outcome ≡ held.write_outcome (spots.full_name name.now (option_copied index.entry)) value written) }
{
    match written {
        Written::Yes => Ok(Outcome::with_result(alloc, value)),
        Written::No(fault) => {
            let word = full_name(alloc, name, index)?;
            let outcome = stored(alloc, &word, value, Written::No(fault))?;
            Ok(outcome)
        }
    }
}

fn stored(alloc: Global, word: &Text, value: Value, written: Written) -> Result<Outcome, NoMemory>
    ensures { IfOk result (λ outcome. outcome ≡ held.write_outcome word.now value written) }
{
    match written {
        Written::Yes => Ok(Outcome::with_result(alloc, value)),
        Written::No(fault) => {
            let message = cannot_set(alloc, word.as_bytes(), fault)?;
            let outcome = Outcome::failed(message)?;
            Ok(outcome)
        }
    }
}
