ghost use Rattle.std.specs.Prelude.{◌≡◌, ◌++◌, ◌↔◌, [], OnOk, OnErr, IsTrue};
ghost use Rattle.std.specs.Fmt.{decimal};
ghost use Rattle.tt_devices.specs.Faults.{Rises};
ghost use Rattle.tt_devices.specs.Streams.{Grows, GrowsByPart};
ghost use Rattle.tt_session.specs.Lines.{PutsLine, program_line, line_of};

use crate::status::{Place, Status};
use itoa::Buffer;
use tt_devices::{Failed, Sink};
use tt_words::USAGE;

/// Puts the status line, for every status but `Done`. `before` is the count of faults of standard error when the call
/// began: after a failure nothing is put. It takes no memory.
pub fn put_status<E: Sink>(status: &Status, before: u64, errors: &mut E)
    ensures { PutsLine E.Sink before status.now [] errors.old errors.new }
{
    put_report(status, b"", before, errors);
}

/// Puts the status line, and after it these bytes as one piece.
pub(crate) fn put_report<E: Sink>(status: &Status, more: &[u8], before: u64, errors: &mut E)
    ensures { PutsLine E.Sink before status.now more.now errors.old errors.new }
{
    if is_empty(status, more) || has_risen(before, errors.faults()) {
        return;
    }
    let _ = put_all(status, more, errors);
}

/// Whether there is nothing to put.
fn is_empty(status: &Status, more: &[u8]) -> bool
    ensures { IsTrue result ↔ (line_of status.now ++ more.now ≡ []) }
{
    matches!(status, Status::Done(_)) && more.is_empty()
}

/// Whether a count of faults rose, or stands at its greatest.
fn has_risen(before: u64, after: u64) -> bool
    ensures { IsTrue result ↔ Rises before after }
{
    before < after || (before == after && after == u64::MAX)
}

/// Puts the line of the status, and then these bytes, if there are any.
fn put_all<E: Sink>(status: &Status, more: &[u8], errors: &mut E) -> Result<(), Failed>
    ensures put { OnOk result (Grows (E.got errors.old) (E.got errors.new) (line_of status.now ++ more.now)) }
    ensures part { OnErr result (GrowsByPart (E.got errors.old) (E.got errors.new) (line_of status.now ++ more.now)) }
    ensures steady { OnOk result (E.fault_count errors.new ≡ E.fault_count errors.old) }
    ensures cause { OnErr result (Rises (E.fault_count errors.old) (E.fault_count errors.new)) }
{
    put_line(status, errors)?;
    if more.is_empty() {
        return Ok(());
    }
    errors.put(more)?;
    Ok(())
}

/// Puts the line of the status.
fn put_line<E: Sink>(status: &Status, errors: &mut E) -> Result<(), Failed>
    ensures put { OnOk result (Grows (E.got errors.old) (E.got errors.new) (line_of status.now)) }
    ensures part { OnErr result (GrowsByPart (E.got errors.old) (E.got errors.new) (line_of status.now)) }
    ensures steady { OnOk result (E.fault_count errors.new ≡ E.fault_count errors.old) }
    ensures cause { OnErr result (Rises (E.fault_count errors.old) (E.fault_count errors.new)) }
{
    match status {
        Status::Done(_) => Ok(()),
        Status::Usage => put_words(errors, b"usage: ", USAGE),
        Status::NoFile(name) => put_words(errors, b"no file ", name.as_bytes()),
        Status::BadSchedule(place) => put_place(errors, *place),
        Status::TooLong(_) => put_words(errors, b"schedule longer than 10000", b""),
        Status::ScheduleEnded => put_words(errors, b"schedule ended", b""),
        Status::Stalled => put_words(errors, b"stalled", b""),
        Status::StepLimit(steps) => put_number(errors, b"step limit ", *steps),
        Status::ReadFault => put_words(errors, b"read fault", b""),
        Status::WriteFault => put_words(errors, b"write fault", b""),
        Status::NoMemory => put_words(errors, b"no memory", b""),
    }
}

/// Puts the line of a wrong place.
fn put_place<E: Sink>(errors: &mut E, place: Place) -> Result<(), Failed>
    ensures put { OnOk result (Grows (E.got errors.old) (E.got errors.new) (line_of (Status.BadSchedule place))) }
    ensures part { OnErr result
        (GrowsByPart (E.got errors.old) (E.got errors.new) (line_of (Status.BadSchedule place))) }
    ensures steady { OnOk result (E.fault_count errors.new ≡ E.fault_count errors.old) }
    ensures cause { OnErr result (Rises (E.fault_count errors.old) (E.fault_count errors.new)) }
{
    match place {
        Place::Byte(offset) => put_number(errors, b"bad schedule at byte ", offset),
        Place::Entry(number) => put_number(errors, b"bad schedule at entry ", number),
    }
}

/// Puts a line of words and a number.
fn put_number<E: Sink>(errors: &mut E, words: &[u8], number: u64) -> Result<(), Failed>
    ensures put { OnOk result
        (Grows (E.got errors.old) (E.got errors.new) (program_line (words.now ++ decimal number))) }
    ensures part { OnErr result
        (GrowsByPart (E.got errors.old) (E.got errors.new) (program_line (words.now ++ decimal number))) }
    ensures steady { OnOk result (E.fault_count errors.new ≡ E.fault_count errors.old) }
    ensures cause { OnErr result (Rises (E.fault_count errors.old) (E.fault_count errors.new)) }
{
    let mut buffer = Buffer::new();
    let digits = buffer.format(number);
    put_words(errors, words, digits.as_bytes())
}

/// Puts a line of words and what follows them, piece by piece.
fn put_words<E: Sink>(errors: &mut E, words: &[u8], more: &[u8]) -> Result<(), Failed>
    ensures put { OnOk result (Grows (E.got errors.old) (E.got errors.new) (program_line (words.now ++ more.now))) }
    ensures part { OnErr result
        (GrowsByPart (E.got errors.old) (E.got errors.new) (program_line (words.now ++ more.now))) }
    ensures steady { OnOk result (E.fault_count errors.new ≡ E.fault_count errors.old) }
    ensures cause { OnErr result (Rises (E.fault_count errors.old) (E.fault_count errors.new)) }
{
    errors.put(b"tclthread: ")?;
    errors.put(words)?;
    errors.put(more)?;
    errors.put(b"\n")?;
    Ok(())
}
