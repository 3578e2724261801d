//! What is met most often: a variable that is read, and commands that write or change a scalar of the current frame. The
//! result alone is answered, and none if the way of all others is to be taken; then nothing has changed.
ghost use Rattle.std.specs.Prelude.{◌≡◌, ◌∷◌, IfNone, IfOk, IfSome, IsFalse, IsTrue, None, codes, []};
ghost use Rattle.std.specs.Fmt.{signed_decimal};
ghost use Rattle.std.specs.Option.{option_copied};
ghost use Rattle.tt_calls.specs.Outcomes.{fine};
ghost use Rattle.tt_script.specs.Names as names;
ghost use Rattle.tt_store.specs.Commands as table;
ghost use Rattle.tt_store.specs.Held as held;
ghost use Rattle.tt_store.specs.Scalars as scalars;
ghost use Rattle.tt_store.specs.Spots.{spot_of};
ghost use Rattle.tt_vars.specs.declared.answers.Written.TheVariants.{Yes};
ghost use Rattle.tt_store.specs.declared.answers.Answer.TheVariants as answers;

use crate::Store;
use crate::command::{Command, row_of};
use tt_calls::Outcome;
use tt_number::{NumOp, binary};
use tt_script::{global_name, split_name};
use tt_text::{NoMemory, Text};
use tt_value::Value;
use tt_vars::Written;

impl Store {
    /// The value of a variable or an element, if it is one of the current frame.
    pub fn value(&self, name: &Text, index: Option<&Text>) -> Option<Value>
        ensures read { IfSome result (λ value. held.IsRead self.now name.now (option_copied index.entry) (fine value)) }
    {
        if is_global(name) {
            return None;
        }
        let Ok(value) = self.nesting.read_here(name, index) else {
            return None;
        };
        if value.is_long_text() {
            return None;
        }
        copy_of(value)
    }

    /// The result of set(n) with these words after its name.
    pub fn set_often(&mut self, words: &[Value]) -> Option<Value>
        ensures run { IfSome result (λ value.
            table.Runs (codes "set" ∷ words.now) self.old (answers.Outcome (fine value)) self.new) }
        ensures none { IfNone result (self.new ≡ self.old) }
    {
        let [name, value] = words else {
            return None;
        };
        let name = name.as_text()?;
        if !self.watches.is_empty() || is_special(name) || value.is_long_text() {
            return None;
        }
        let given = copy_of(value)?;
        let result = copy_of(value)?;
        match self.nesting.write_here(name, given) {
            Ok(Written::Yes) => Some(result),
            _ => None,
        }
    }

    /// The result of incr(n) with these words after its name.
    pub fn incr_often(&mut self, words: &[Value]) -> Option<Value>
        ensures run { IfSome result (λ value.
            table.Runs (codes "incr" ∷ words.now) self.old (answers.Outcome (fine value)) self.new) }
        ensures none { IfNone result (self.new ≡ self.old) }
    {
        match words {
            [name] => self.increase(name, 1),
            [name, step] => self.increase(name, step.number()?),
            _ => None,
        }
    }

    /// What append(n) comes to with these words after its name.
    ///
    /// `NoMemory` if memory is refused.
    pub fn append_often(&mut self, words: &[Value]) -> Result<Outcome, NoMemory>
        ensures run { IfOk result (λ outcome.
            table.Runs (codes "append" ∷ words.now) self.old (answers.Outcome outcome) self.new) }
    {
        self.append(row_of(Command::Append).usage, words)
    }

    /// What lappend(n) comes to with these words after its name.
    ///
    /// `NoMemory` if memory is refused.
    pub fn lappend_often(&mut self, words: &[Value]) -> Result<Outcome, NoMemory>
        ensures run { IfOk result (λ outcome.
            table.Runs (codes "lappend" ∷ words.now) self.old (answers.Outcome outcome) self.new) }
    {
        self.lappend(row_of(Command::Lappend).usage, words)
    }

    // A scalar that keeps a number is increased.
    fn increase(&mut self, name: &Value, step: i64) -> Option<Value>
        ensures some { IfSome result (λ value. scalars.Changes name.now (codes "0")
            (scalars.increment_of (signed_decimal step)) self.old (fine value) self.new) }
        ensures none { IfNone result (self.new ≡ self.old) }
    {
        let name = name.as_text()?;
        if !self.watches.is_empty() || is_special(name) {
            return None;
        }
        let Ok(value) = self.nesting.read_here(name, None) else {
            return None;
        };
        let number = value.number()?;
        let Ok(sum) = binary(NumOp::Add, number, step) else {
            return None;
        };
        if self.write_scalar(name, Value::from_whole(sum)) {
            return Some(Value::from_whole(sum));
        }
        None
    }

    // Whether a value could be given to a name of the current frame, if nothing is watched. If not nothing has changed.
    fn write_scalar(&mut self, name: &Text, value: Value) -> bool
        requires element { names.element_of name.now ≡ None }
        requires global { names.global_of name.now ≡ None }
        requires watches { self.old.watches ≡ [] }
        ensures written { IsTrue result → held.Sets self.old (spot_of name.now) value self.new Yes }
        ensures unchanged { IsFalse result → self.new ≡ self.old }
    {
        match self.nesting.write_here(name, value) {
            Ok(Written::Yes) => true,
            Ok(Written::No(_)) => false,
            Err(_) => false,
        }
    }
}

// A second value of the same text.
fn copy_of(value: &Value) -> Option<Value>
    ensures { IfSome result (λ copy. copy ≡ value.now) }
{
    match value.copy() {
        Ok(copy) => Some(copy),
        Err(_) => None,
    }
}

// Whether a name has a leading `::`.
fn is_global(name: &Text) -> bool
    ensures { IsFalse result → names.global_of name.now ≡ None }
{
    global_name(name.as_bytes()).is_some()
}

/// Whether a name is that of an element, or has a leading `::`.
pub(crate) fn is_special(name: &Text) -> bool
    ensures global { IsFalse result → names.global_of name.now ≡ None }
    ensures element { IsFalse result → names.element_of name.now ≡ None }
{
    is_global(name) || split_name(name.as_bytes()).is_some()
}
