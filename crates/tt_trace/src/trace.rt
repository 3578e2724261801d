ghost use Rattle.std.specs.Prelude.{◌≡◌, ◌≤◌, ◌++◌, IfOk, OnOk, length, take};
ghost use Rattle.tt_trace.specs.Lines.{heading, line_at, place_in_body, procedure_line, short_command, new_trace};
ghost use Rattle.tt_trace.specs.Lines.{trace_after, with_command, with_line, with_procedure};

use itoa::Buffer;
use std::alloc::Global;
use std::marker::Model;
use tt_lanes::count_newlines;
use tt_text::{NoMemory, Text};

/// The most bytes of a command that a trace shows.
pub const LONGEST: usize = 150;

/// What joins the next command to a trace: the line over it.
#[derive(Clone, Copy, Debug, PartialEq, Eq)]
pub enum Joint {
    /// It is the first that ended with the error.
    WhileExecuting,
    /// It evaluated what stands before it in the trace.
    InvokedFromWithin,
}

impl Joint {
    // The line over a command.
    fn heading(self) -> &'static [u8]
        ensures { result.now ≡ heading self }
    {
        match self {
            Joint::WhileExecuting => b"    while executing",
            Joint::InvokedFromWithin => b"    invoked from within",
        }
    }
}

/// The trace of an error (tclvars(n), errorInfo): its message, and then the commands that ended with it and the
/// procedures that they stood in, in order outwards. Contracts see its text so far, and what joins the next command.
#[derive(Debug, Drop)]
pub struct Trace {
    text: Text,
    joint: Joint,
}

impl Model for Trace {
    ghost use Rattle.tt_trace.specs.Lines.{TraceText};

    ghost Value = { TraceText };

    ghost view = { λ trace. record { text = trace.text; joint = trace.joint } };
}

impl Trace {
    /// The trace of a new error with this message.
    ///
    /// `NoMemory` if memory for it is refused.
    pub fn start(alloc: Global, message: &[u8]) -> Result<Self, NoMemory>
        ensures started { IfOk result (λ trace. trace ≡ new_trace message.now) }
    {
        Ok(Trace {
            text: Text::from_bytes(alloc, message)?,
            joint: Joint::WhileExecuting,
        })
    }

    /// A trace that goes on with this one, of another thread or job, or that the `info` of `error` begins (error(n)).
    /// The first command added has the line `invoked from within`.
    ///
    /// `NoMemory` if memory for it is refused.
    pub fn start_within(alloc: Global, trace: &[u8]) -> Result<Self, NoMemory>
        ensures started { IfOk result (λ new_trace. new_trace ≡ trace_after trace.now) }
    {
        Ok(Trace {
            text: Text::from_bytes(alloc, trace)?,
            joint: Joint::InvokedFromWithin,
        })
    }

    /// Adds a command that ended with the error, by its text from the first word to the last: the line that joins it,
    /// and the text in quotes. `...` stands for what is past 150 bytes.
    ///
    /// `NoMemory` if memory for it is refused.
    pub fn add_command(&mut self, text: &[u8]) -> Result<(), NoMemory>
        ensures added { OnOk result (self.new ≡ with_command self.old text.now) }
    {
        self.push_line(self.joint.heading())?;
        self.push_line(b"\"")?;
        self.push_shortened(text)?;
        self.text.push_bytes(b"\"")?;
        self.joint = Joint::InvokedFromWithin;
        Ok(())
    }

    /// Adds the end of a procedure's body (proc(n)), with the line of the body that the command stood in.
    ///
    /// `NoMemory` if memory for it is refused.
    pub fn add_procedure(&mut self, name: &[u8], line: u64) -> Result<(), NoMemory>
        ensures added { OnOk result (self.new ≡ with_procedure self.old name.now line) }
    {
        self.text.push_bytes(b"\n")?;
        push_procedure(&mut self.text, name, line)?;
        Ok(())
    }

    /// The text.
    pub fn text(&self) -> &Text
        ensures text { result.now ≡ self.now.text }
    {
        &self.text
    }

    fn push_line(&mut self, line: &[u8]) -> Result<(), NoMemory>
        ensures { OnOk result (self.new ≡ record self.old { text = with_line self.old.text line.now }) }
    {
        self.text.push_bytes(b"\n")?;
        self.text.push_bytes(line)?;
        Ok(())
    }

    fn push_shortened(&mut self, command: &[u8]) -> Result<(), NoMemory>
        ensures { OnOk result (self.new ≡ record self.old { text = self.old.text ++ short_command command.now }) }
    {
        if command.len() > LONGEST {
            self.text.push_bytes(front(command, LONGEST))?;
            self.text.push_bytes(b"...")?;
        } else {
            self.text.push_bytes(command)?;
        }
        Ok(())
    }
}

// So many bytes from the front.
fn front(bytes: &[u8], count: usize) -> &[u8]
    requires { count ≤ length bytes.now }
    ensures { result.now ≡ take count bytes.now }
{
    &bytes[..count]
}

fn push_procedure(text: &mut Text, name: &[u8], line: u64) -> Result<(), NoMemory>
    ensures { OnOk result (text.new ≡ text.old ++ procedure_line name.now line) }
{
    text.push_bytes(b"    (procedure \"")?;
    text.push_bytes(name)?;
    push_place(text, line)?;
    Ok(())
}

#[tactic(auto, using(crate::proofs::Pieces::in_pieces))]
fn push_place(text: &mut Text, line: u64) -> Result<(), NoMemory>
    ensures { OnOk result (text.new ≡ text.old ++ place_in_body line) }
{
    let mut buffer = Buffer::new();
    text.push_bytes(b"\" line ")?;
    text.push_bytes(buffer.format(line).as_bytes())?;
    text.push_bytes(b")")?;
    Ok(())
}

/// The line of a procedure's body that this place is in, the first being 1. A place past the end is in the last.
pub fn line_at(body: &[u8], place: usize) -> u64
    ensures line { result ≡ line_at body.now place }
{
    let before = &body[..place.min(body.len())];
    count_newlines(before) as u64 + 1
}
