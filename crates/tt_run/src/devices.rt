ghost use Rattle.std.specs.Prelude.{◌≡◌, ◌≢◌, ◌⊎◌, [], true, Err, IfOk, IfErr, OnOk, OnErr, IsErrOf};
ghost use Rattle.std.specs.Io.KnownBytes.{Keeps};
ghost use Rattle.tt_run.specs.Acting.{ReadsBy};
ghost use Rattle.tt_run.specs.Desk.{input_left};
ghost use Rattle.tt_devices.specs.Faults.{Rises};
ghost use Rattle.tt_devices.specs.Streams.{Grows, GrowsByPart, LosesPart};
ghost use Rattle.tt_lines.specs.Lines.{IsInLine, reads_line};

use crate::StepFault;
use std::alloc::Global;
use std::marker::Model;
use tt_calls::Request;
use tt_devices::{Failed, Sink, Source};
use tt_lines::{Ahead, LineFault};
use tt_shared::Line;

/// Standard input with what was read ahead of it, standard output and standard error.
#[derive(Drop)]
pub(crate) struct Devices<S: Source, K: Sink, E: Sink> {
    pub(crate) input: S,
    pub(crate) ahead: Ahead,
    pub(crate) output: K,
    pub(crate) errors: E,
}

impl<S: Source, K: Sink, E: Sink> Model for Devices<S, K, E> {
    ghost use Rattle.tt_run.specs.Desk.{Devices as Outside};

    ghost Value = { Outside S K E };

    ghost view = { λ devices. record {
      input = devices.input;
      ahead = devices.ahead;
      output = devices.output;
      errors = devices.errors;
    } };
}

impl<S: Source, K: Sink, E: Sink> Devices<S, K, E> {
    /// Devices of which nothing was read ahead. It takes no memory.
    pub(crate) fn new(alloc: Global, input: S, output: K, errors: E) -> Self
        ensures { result ≡ record { input = input; ahead = []; output = output; errors = errors } }
    {
        Devices {
            input,
            ahead: Ahead::new(alloc),
            output,
            errors,
        }
    }

    /// The line of standard input that a request asks for.
    pub(crate) fn read(&mut self, request: &Request) -> Result<Line, StepFault>
        ensures line { IfOk result (λ line. ReadsBy (reads_line request.now) S.held self.old self.new line) }
        ensures cause { IsErrOf result StepFault.ReadFault →
            Rises (S.fault_count self.old.input) (S.fault_count self.new.input) × (reads_line request.now ≡ true) }
        ensures nothing_lost { IsErrOf result StepFault.ReadFault →
            Keeps (input_left S.held self.old) (input_left S.held self.new) }
        ensures steady { (result ≢ Err StepFault.ReadFault) →
            S.fault_count self.new.input ≡ S.fault_count self.old.input }
        ensures others { (self.new.output ≡ self.old.output) × (self.new.errors ≡ self.old.errors) }
        ensures faults { IfErr result (λ fault. (fault ≡ StepFault.ReadFault) ⊎ (fault ≡ StepFault.NoMemory)) }
        ensures taken { LosesPart (S.held self.old.input) (S.held self.new.input) }
        ensures read_ahead { ¬ (IsInLine self.old.ahead) →
            (self.new.input ≡ self.old.input) × (result ≢ Err StepFault.ReadFault) }
    {
        if !reads_line(request) {
            return Ok(Line::NotRead);
        }
        match self.ahead.next_line(&mut self.input) {
            Ok(line) => Ok(line),
            Err(LineFault::Failed) => Err(StepFault::ReadFault),
            Err(LineFault::NoMemory) => Err(StepFault::NoMemory),
        }
    }

    /// Puts what a request writes. After a piece that failed nothing more is put.
    pub(crate) fn put(&mut self, out: &[u8], err: &[u8]) -> Result<(), StepFault>
        ensures out { OnOk result (Grows (K.got self.old.output) (K.got self.new.output) out.now) }
        ensures err { OnOk result (Grows (E.got self.old.errors) (E.got self.new.errors) err.now) }
        ensures part_of_out { OnErr result (GrowsByPart (K.got self.old.output) (K.got self.new.output) out.now) }
        ensures part_of_err { OnErr result (GrowsByPart (E.got self.old.errors) (E.got self.new.errors) err.now) }
        ensures in_order { OnErr result ((self.new.errors
            ≡ self.old.errors) ⊎ Grows (K.got self.old.output) (K.got self.new.output) out.now) }
        ensures writes { OnErr result ((out.now ≢ []) ⊎ (err.now ≢ [])) }
        ensures cause { OnErr result (Rises (K.fault_count self.old.output) (K.fault_count self.new.output)
            ⊎ Rises (E.fault_count self.old.errors) (E.fault_count self.new.errors)) }
        ensures steady_output { OnOk result (K.fault_count self.new.output ≡ K.fault_count self.old.output) }
        ensures steady_errors { OnOk result (E.fault_count self.new.errors ≡ E.fault_count self.old.errors) }
        ensures others { (self.new.input ≡ self.old.input) × (self.new.ahead ≡ self.old.ahead) }
        ensures fault { IfErr result (λ fault. fault ≡ StepFault.WriteFault) }
    {
        if put_piece(&mut self.output, out).is_err() {
            return Err(StepFault::WriteFault);
        }
        if put_piece(&mut self.errors, err).is_err() {
            return Err(StepFault::WriteFault);
        }
        Ok(())
    }
}

/// Whether a request asks for a line of standard input.
fn reads_line(request: &Request) -> bool
    ensures { result ≡ reads_line request.now }
{
    matches!(request, Request::ReadLine)
}

/// Puts a piece, unless it is empty.
fn put_piece<K: Sink>(sink: &mut K, piece: &[u8]) -> Result<(), Failed>
    ensures put { OnOk result (Grows (K.got sink.old) (K.got sink.new) piece.now) }
    ensures part { OnErr result (GrowsByPart (K.got sink.old) (K.got sink.new) piece.now) }
    ensures some { OnErr result (piece.now ≢ []) }
    ensures steady { OnOk result (K.fault_count sink.new ≡ K.fault_count sink.old) }
    ensures cause { OnErr result (Rises (K.fault_count sink.old) (K.fault_count sink.new)) }
{
    if piece.is_empty() {
        return Ok(());
    }
    let put = sink.put(piece);
    put
}
