ghost use Rattle.std.specs.Prelude.{◌≡◌, IfOk, IsTrue, OnOk};
ghost use Rattle.tt_shared.specs.Acts.{act, has_newline, reads, reads_bytes, writes_err, writes_out};
ghost use Rattle.tt_calls.specs.declared.reply.Reply.TheVariants.{Value};
ghost use Rattle.tt_shared.specs.State.{answer, truth};
ghost use Rattle.tt_shared.specs.Enabled.{enabled};
ghost use Rattle.tt_threads.specs.Rows.{is_living};

use crate::sends::Sent;
use crate::{Applied, Line, Shared};
use tt_calls::{Reply, Request};
use tt_text::{NoMemory, Text};

impl Shared {
    /// What a request of a thread that lives does, and its answer. The request is enabled. `line` is what was read of
    /// standard input for ReadLine, and `NotRead` for any other (puts(n), gets(n), eof(n), thread(n), tsv(n), tpool(n),
    /// chan(n)).
    ///
    /// `NoMemory` if memory is refused; then nothing is said of what is shared.
    pub fn apply(&mut self, thread: u32, request: &Request, line: Line) -> Result<Applied, NoMemory>
        requires lives { IsTrue (is_living self.old.rows thread) }
        requires enabled { IsTrue (enabled self.old thread request.now) }
        ensures state { OnOk result (self.new ≡ (act self.old thread request.now line).state) }
        ensures gives { IfOk result (λ gives. gives ≡ (act self.old thread request.now line).gives) }
    {
        match request {
            Request::WriteOut { text } => self.write_out(text),
            Request::WriteErr { text } => self.write_err(text),
            Request::ReadLine => self.read(line),
            Request::StdinEof => self.input_end(),
            Request::Create {
                joinable,
                preserved,
                script,
            } => self.create(*joinable, *preserved, script),
            Request::Release { id } => self.release(thread, id, request),
            Request::ErrorProc { name } => self.name_procedure(thread, name),
            Request::Send {
                id,
                script,
                mode,
                variable,
                head,
            } => {
                let sent = Sent {
                    script,
                    mode: *mode,
                    variable,
                    head: *head,
                };
                self.send(thread, id, &sent)
            }
            Request::Await { n } => Ok(self.await_answer(thread, *n)),
            Request::Take | Request::TakeReady => Ok(self.take(thread)),
            Request::Deliver { n, outcome } => self.deliver(thread, *n, outcome),
            Request::Report { trace, plain } => self.report(thread, trace, *plain),
            Request::Broadcast { script } => self.broadcast(thread, script),
            Request::Tsv(call) => self.on_arrays(thread, call.get()),
            Request::Lock(call) => self.on_locks(thread, call.get()),
            Request::Pool(call) => self.on_pools(thread, call.get()),
            Request::Chan(call) => self.on_channels(thread, call.get()),
            Request::DropTimer { .. } | Request::AwaitTime | Request::Pause => {
                Ok(self.answer(Reply::Go))
            }
            Request::End { code } => self.end(thread, *code),
            Request::Exit { code } => Ok(self.exit(*code)),
            Request::Preserve { .. }
            | Request::Names
            | Request::Exists { .. }
            | Request::Join { .. }
            | Request::AwaitEnd { .. }
            | Request::Configure { .. }
            | Request::AddTimer { .. }
            | Request::Sleep { .. }
            | Request::Cancel { .. } => self.in_rows(thread, request),
        }
    }

    fn write_out(&self, text: &Text) -> Result<Applied, NoMemory>
        ensures { IfOk result (λ gives. gives ≡ (writes_out self.now text.now).gives) }
    {
        let mut gives = self.answer(Reply::Go);
        gives.out = text.copy()?;
        Ok(gives)
    }

    fn write_err(&self, text: &Text) -> Result<Applied, NoMemory>
        ensures { IfOk result (λ gives. gives ≡ (writes_err self.now text.now).gives) }
    {
        let mut gives = self.answer(Reply::Go);
        gives.err = text.copy()?;
        Ok(gives)
    }

    // Whether the end of standard input was met.
    fn input_end(&self) -> Result<Applied, NoMemory>
        ensures { IfOk result (λ gives. gives ≡ answer self.now (Value (truth self.now.input_ended))) }
    {
        let text: &[u8] = if self.input_ended { b"1" } else { b"0" };
        let text = Text::from_bytes(self.alloc, text)?;
        Ok(self.answer(Reply::Value(text)))
    }

    // A line of standard input.
    fn read(&mut self, line: Line) -> Result<Applied, NoMemory>
        ensures state { OnOk result (self.new ≡ (reads self.old line).state) }
        ensures gives { IfOk result (λ gives. gives ≡ (reads self.old line).gives) }
    {
        match line {
            Line::NotRead => Ok(self.not_asked()),
            Line::Read(text) => self.read_bytes(text),
            Line::End => {
                self.input_ended = true;
                Ok(self.answer(Reply::LineEnd))
            }
            Line::TooLong => self.refusal(b"line too long"),
        }
    }

    fn read_bytes(&mut self, text: Text) -> Result<Applied, NoMemory>
        ensures state { OnOk result (self.new ≡ (reads_bytes self.old text).state) }
        ensures gives { IfOk result (λ gives. gives ≡ (reads_bytes self.old text).gives) }
    {
        if !has_newline(text.as_bytes()) {
            self.input_ended = true;
            return Ok(self.answer(Reply::Line(text)));
        }
        let bytes = text.as_bytes();
        let (line, _) = bytes.split_at(bytes.len().saturating_sub(1));
        let line = Text::from_bytes(self.alloc, line)?;
        Ok(self.answer(Reply::Line(line)))
    }
}

// Whether the last byte is a newline.
fn has_newline(text: &[u8]) -> bool
    ensures { result ≡ has_newline text.now }
{
    text.get(text.len().saturating_sub(1)) == Some(&b'\n')
}
