//! Levels: calls of procedures, the frames above, and links to their variables (proc(n), upvar(n), uplevel(n),
//! info(n)).
ghost use Rattle.std.specs.Prelude.{◌≡◌, ◌≤◌, IfOk, IfSome, None, OnErr, OnOk};
ghost use Rattle.tt_store.specs.Held as held;
ghost use Rattle.tt_store.specs.Levels as levels;
ghost use Rattle.tt_store.specs.Spots.{spot};

use crate::Store;
use crate::spot::{spot_named, spot_of};
use tt_procedures::Argument;
use tt_text::{NoMemory, Text};
use tt_value::Value;
use tt_vars::{Linked, VarFault, Written};

impl Store {
    /// A procedure is called (proc(n)): it gets a frame of its own, in which each parameter has its value; `leave`
    /// ends it.
    ///
    /// `NoMemory` if memory is refused.
    pub fn call(&mut self, arguments: &[Argument]) -> Result<(), NoMemory>
        ensures called { OnOk result (held.Calls arguments.now self.old self.new) }
    {
        self.nesting.call()?;
        self.set_variables(arguments)
    }

    /// Variables of the current frame are set, one after the other. One that can't be set is left as it was.
    ///
    /// `NoMemory` if memory is refused.
    pub fn set_variables(&mut self, arguments: &[Argument]) -> Result<(), NoMemory>
        ensures set { OnOk result (held.AreSet arguments.now self.old self.new) }
    {
        for argument in arguments {
            self.set_one(argument)?;
        }
        Ok(())
    }

    fn set_one(&mut self, argument: &Argument) -> Result<Written, NoMemory>
        ensures { IfOk result (held.Sets self.old (spot argument.now.name None) argument.now.value self.new) }
    {
        let spot = spot_named(self.alloc, argument.name.as_bytes(), None)?;
        let written = self.set_spot(&spot, argument.value.copy()?)?;
        Ok(written)
    }

    /// How many callers up the global frame is from the current one (info(n)).
    pub fn depth(&self) -> u64
        ensures depth { levels.HasDepth self.now.levels result }
    {
        self.nesting.depth()
    }

    /// The frame that is so many callers up from the current one (uplevel(n)); `None` if there are fewer.
    pub fn above(&self, count: u64) -> Option<u64>
        ensures above { result ≡ levels.above self.now.levels count self.now.levels.current }
        ensures lower { IfSome result (λ frame. frame ≤ self.now.levels.current) }
    {
        self.nesting.above(count)
    }

    /// A script begins in a frame that is above or the current one (uplevel(n)); `leave` ends it.
    ///
    /// `NoMemory` if memory is refused; then nothing has changed.
    pub fn begin(&mut self, frame: u64) -> Result<(), NoMemory>
        requires lower { frame ≤ self.old.levels.current }
        ensures begun { OnOk result (self.new ≡ held.with_script_at frame self.old) }
        ensures unchanged { OnErr result (self.new ≡ self.old) }
    {
        self.nesting.begin(frame)
    }

    /// Makes a local name a link to what a word names in a frame that is above or the current one (upvar(n)), or says
    /// why not; then nothing has changed.
    ///
    /// `NoMemory` if memory is refused.
    pub fn link(&mut self, local: &Text, frame: u64, word: &Text) -> Result<Linked, NoMemory>
        requires lower { frame ≤ self.old.levels.current }
        ensures linked { IfOk result (λ answer. held.LinksTo self.old local.now frame word.now self.new answer) }
    {
        let spot = spot_of(self.alloc, word.as_bytes())?;
        let answer = self.nesting.link(local, frame, &spot)?;
        Ok(answer)
    }

    /// Whether what a word names is there: a scalar, an array or an element (info(n)).
    ///
    /// `NoMemory` if memory is refused.
    pub fn exists(&self, word: &Text) -> Result<bool, NoMemory>
        ensures exists { IfOk result (held.IsThere word.now self.now) }
    {
        let spot = spot_of(self.alloc, word.as_bytes())?;
        Ok(is_there(self.find(&spot)?))
    }
}

fn is_there(found: Result<Value, VarFault>) -> bool
    ensures { result ≡ held.is_there found }
{
    match found {
        Ok(_) | Err(VarFault::IsArray) => true,
        Err(_) => false,
    }
}
