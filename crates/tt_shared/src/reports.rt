ghost use Rattle.std.specs.Prelude.{◌≡◌, IfOk, OnOk, option_copied};
ghost use Rattle.tt_shared.specs.Sends.{call_of, is_linked_row, name_of, names_procedure, procedure_in_use};
ghost use Rattle.tt_shared.specs.Sends.{procedure_set, report_text, reports};
ghost use Rattle.tt_threads.specs.Rows.{row_of};

use crate::{Applied, Shared};
use std::alloc::Global;
use tt_calls::Reply;
use tt_ids::{IdKind, id_text};
use tt_lists::join_list;
use tt_text::{NoMemory, Text, Texts};

/// The procedure that errors of threads are reported to (thread(n), thread::errorproc).
#[derive(Debug, Drop)]
pub struct ErrorProcedure {
    /// The thread that set it, which evaluates its calls.
    pub thread: u32,
    pub name: Text,
}

impl Shared {
    // The procedure is set by this thread, unset by the empty name, or asked for.
    pub(crate) fn name_procedure(
        &mut self,
        thread: u32,
        name: &Option<Text>,
    ) -> Result<Applied, NoMemory>
        ensures state { OnOk result (self.new ≡ (names_procedure self.old thread name.now).state) }
        ensures gives { IfOk result (λ gives. gives ≡ (names_procedure self.old thread name.now).gives) }
    {
        match name {
            Some(name) => {
                self.error_procedure = procedure_set(thread, name)?;
                Ok(self.answer(Reply::Go))
            }
            None => {
                let name = self.procedure_name()?;
                Ok(self.answer(Reply::Value(name)))
            }
        }
    }

    fn procedure_name(&self) -> Result<Text, NoMemory>
        ensures { IfOk result (λ name. name ≡ name_of self.now.error_procedure) }
    {
        match &self.error_procedure {
            Some(procedure) => procedure.name.copy(),
            None => Ok(Text::new(self.alloc)),
        }
    }

    // An error goes to that procedure, or to standard error.
    pub(crate) fn report(
        &mut self,
        thread: u32,
        trace: &Text,
        plain: bool,
    ) -> Result<Applied, NoMemory>
        ensures state { OnOk result (self.new ≡ (reports self.old thread trace.now plain).state) }
        ensures gives { IfOk result (λ gives. gives ≡ (reports self.old thread trace.now plain).gives) }
    {
        let Some(procedure) = self.procedure_in_use(plain) else {
            let mut gives = self.answer(Reply::Served(self.unwinds(thread)));
            gives.err = report_text(self.alloc, thread, trace)?;
            return Ok(gives);
        };
        let target = procedure.thread;
        let script = call_of(self.alloc, &procedure.name, thread, trace)?;
        self.tell(target, script, true)?;
        Ok(self.answer(Reply::Served(self.unwinds(thread))))
    }

    // The procedure, if its thread is linked, and the error isn't one of its own.
    fn procedure_in_use(&self, plain: bool) -> Option<&ErrorProcedure>
        ensures { option_copied result ≡ procedure_in_use self.now plain self.now.error_procedure }
    {
        let procedure = self.error_procedure.as_ref()?;
        (!plain && self.is_linked(procedure.thread)).then_some(procedure)
    }

    pub(crate) fn is_linked(&self, thread: u32) -> bool
        ensures { result ≡ is_linked_row (row_of self.now.rows thread) }
    {
        self.threads
            .row(thread)
            .is_some_and(|row| row.life.is_linked())
    }
}

fn procedure_set(thread: u32, name: &Text) -> Result<Option<ErrorProcedure>, NoMemory>
    ensures { IfOk result (λ procedure. procedure ≡ procedure_set thread name.now) }
{
    if name.is_empty() {
        return Ok(None);
    }
    Ok(Some(ErrorProcedure {
        thread,
        name: name.copy()?,
    }))
}

// A call of the procedure with the thread's id and the trace.
fn call_of(alloc: Global, name: &Text, thread: u32, trace: &Text) -> Result<Text, NoMemory>
    ensures { IfOk result (λ script. script ≡ call_of name.now thread trace.now) }
{
    let mut words = Texts::new(alloc);
    words.push(name.copy()?)?;
    words.push(id_text(alloc, IdKind::Thread, u64::from(thread))?)?;
    words.push(trace.copy()?)?;
    join_list(alloc, words.as_slice())
}

fn report_text(alloc: Global, thread: u32, trace: &Text) -> Result<Text, NoMemory>
    ensures { IfOk result (λ text. text ≡ report_text thread trace.now) }
{
    let mut text = Text::from_bytes(alloc, b"Error from thread ")?;
    let id = id_text(alloc, IdKind::Thread, u64::from(thread))?;
    text.push_bytes(id.as_bytes())?;
    text.push_bytes(b"\n")?;
    text.push_bytes(trace.as_bytes())?;
    text.push_bytes(b"\n")?;
    Ok(text)
}
