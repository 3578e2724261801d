//! What an evaluation gets for what it wants (Tcl(n), vwait(n)).
ghost use Rattle.std.specs.Prelude.{◌≡◌, IfNone, IfOk, IfSome};
ghost use Rattle.std.specs.Option.{option_copied};
ghost use Rattle.tt_calls.specs.Outcomes.{fine};
ghost use Rattle.tt_kept.specs.Answering as answering;
ghost use Rattle.tt_kept.specs.Commands as commands;
ghost use Rattle.tt_store.specs.Held.{after_end};
ghost use Rattle.tt_outcomes.specs.declared.got.Got.TheVariants as gots;
ghost use Rattle.tt_outcomes.specs.declared.want.Want.TheVariants as wants;

use crate::Kept;
use std::alloc::Global;
use tt_calls::Outcome;
use tt_outcomes::{Got, Want};
use tt_store::Answer;
use tt_text::{NoMemory, Text};
use tt_value::{Value, Values};

impl Kept {
    /// What is got for this.
    ///
    /// `NoMemory` if memory is refused, and for a request, to which there is no answer here.
    pub fn answer(&mut self, alloc: Global, want: Want) -> Result<Got, NoMemory>
        ensures answers { IfOk result (λ got. answering.Answers want self.old got self.new) }
    {
        if let Some(value) = self.answer_often(&want) {
            return Ok(Got::Value(Outcome::with_result(alloc, value)));
        }
        self.answer_any(alloc, want)
    }

    // The value that is got, for what is wanted most often; none if the way of all others is to be taken, and then
    // nothing has changed.
    fn answer_often(&mut self, want: &Want) -> Option<Value>
        ensures some { IfSome result (λ value. answering.Answers want.now self.old (gots.Value (fine value)) self.new) }
        ensures none { IfNone result (self.new ≡ self.old) }
    {
        match want {
            Want::ReadVar { name, index } => self.store.value(name, index.as_ref()),
            Want::RunWords { words } => self.run_often(words.as_slice()),
            _ => None,
        }
    }

    #[inline(never)]
    fn answer_any(&mut self, alloc: Global, want: Want) -> Result<Got, NoMemory>
        ensures { IfOk result (λ got. answering.Answers want self.old got self.new) }
    {
        match want {
            Want::ReadVar { name, index } => self.read(&name, index.as_ref()),
            Want::WriteVar { name, index, value } => self.write(&name, index.as_ref(), value),
            Want::RunWords { words } => self.run_words(alloc, words),
            Want::Enter => self.enter(alloc),
            Want::Leave { .. } => self.leave(alloc),
            Want::Watch { name } => self.watch(alloc, &name),
            Want::Seen => self.seen(alloc),
            Want::Unwatch => self.unwatch(alloc),
            Want::Ask { .. } => Err(NoMemory),
        }
    }

    #[inline(never)]
    fn read(&mut self, name: &Text, index: Option<&Text>) -> Result<Got, NoMemory>
        ensures { IfOk result (λ got.
            answering.Answers (wants.ReadVar name.now (option_copied index.entry)) self.old got self.new) }
    {
        match index {
            Some(index) => self.read_at(name, Some(index.as_bytes())),
            None => self.read_at(name, None),
        }
    }

    fn read_at(&mut self, name: &Text, index: Option<&[u8]>) -> Result<Got, NoMemory>
        ensures { IfOk result (λ got.
            answering.Answers (wants.ReadVar name.now (option_copied index.entry)) self.old got self.new) }
    {
        let outcome = self.store.read(name.as_bytes(), index)?;
        Ok(Got::Value(outcome))
    }

    #[inline(never)]
    fn write(&mut self, name: &Text, index: Option<&Text>, value: Value) -> Result<Got, NoMemory>
        ensures { IfOk result (λ got.
            answering.Answers (wants.WriteVar name.now (option_copied index.entry) value) self.old got self.new) }
    {
        match index {
            Some(index) => self.write_at(name, Some(index.as_bytes()), value),
            None => self.write_at(name, None, value),
        }
    }

    fn write_at(&mut self, name: &Text, index: Option<&[u8]>, value: Value) -> Result<Got, NoMemory>
        ensures { IfOk result (λ got.
            answering.Answers (wants.WriteVar name.now (option_copied index.entry) value) self.old got self.new) }
    {
        let outcome = self.store.write(name.as_bytes(), index, value)?;
        Ok(Got::Value(outcome))
    }

    #[inline(never)]
    fn run_words(&mut self, alloc: Global, words: Values) -> Result<Got, NoMemory>
        ensures { IfOk result (λ got. answering.Answers (wants.RunWords words) self.old got self.new) }
    {
        match self.run(alloc, words.as_slice())? {
            Answer::Outcome(outcome) => Ok(Got::Value(outcome)),
            Answer::Body { body, text } => Ok(Got::RunBody { body, text }),
            Answer::Other => Ok(Got::Own { words }),
        }
    }

    #[inline(never)]
    fn enter(&mut self, alloc: Global) -> Result<Got, NoMemory>
        ensures { IfOk result (λ got. answering.Answers wants.Enter self.old got self.new) }
    {
        self.store.enter()?;
        Ok(nothing(alloc))
    }

    #[inline(never)]
    fn leave(&mut self, alloc: Global) -> Result<Got, NoMemory>
        ensures { IfOk result (λ got. (got ≡ answering.nothing)
            × (self.new ≡ commands.with_store self.old (after_end self.old.store))) }
    {
        self.store.leave();
        Ok(nothing(alloc))
    }

    #[inline(never)]
    fn watch(&mut self, alloc: Global, name: &Text) -> Result<Got, NoMemory>
        ensures { IfOk result (λ got. answering.Answers (wants.Watch name.now) self.old got self.new) }
    {
        self.store.watch(name.as_bytes())?;
        Ok(nothing(alloc))
    }

    #[inline(never)]
    fn seen(&self, alloc: Global) -> Result<Got, NoMemory>
        ensures { IfOk result (λ got. answering.Answers wants.Seen self.now got self.now) }
    {
        truth(alloc, self.store.seen())
    }

    #[inline(never)]
    fn unwatch(&mut self, alloc: Global) -> Result<Got, NoMemory>
        ensures { IfOk result (λ got. answering.Answers wants.Unwatch self.old got self.new) }
    {
        self.store.unwatch();
        Ok(nothing(alloc))
    }
}

fn nothing(alloc: Global) -> Got
    ensures { result ≡ answering.nothing }
{
    Got::Value(Outcome::fine(alloc, Text::new(alloc)))
}

fn truth(alloc: Global, holds: bool) -> Result<Got, NoMemory>
    ensures { IfOk result (λ got. got ≡ answering.truth holds) }
{
    let text = if holds {
        Text::from_bytes(alloc, b"1")?
    } else {
        Text::from_bytes(alloc, b"0")?
    };
    Ok(Got::Value(Outcome::fine(alloc, text)))
}
