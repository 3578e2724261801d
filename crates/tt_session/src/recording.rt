ghost use Rattle.std.specs.Prelude.{◌≡◌, []};
ghost use Rattle.std.specs.Option.{option_map};
ghost use Rattle.tt_words.specs.CodeValues.{text_of};
ghost use Rattle.tt_session.specs.Lines.{PutsLine};
ghost use Rattle.tt_session.specs.Recording.{Records};
ghost use Rattle.tt_session.specs.Status.{ended_status};

use crate::ended::{Ended, Finish};
use crate::line::{put_report, put_status};
use crate::reporting::Reported;
use crate::status::{End, Status};
use std::alloc::Global;
use tt_devices::{Files, Sink};
use tt_schedule::{Schedule, print};

/// Closes a run: records its schedule if a file is named for it, and reports how the call ends. `before` is the count
/// of faults of standard error when the call began.
pub fn close<F: Files, S, K, E: Sink>(
    alloc: Global,
    file: Option<&str>,
    files: &mut F,
    before: u64,
    finish: Finish<S, K, E>,
) -> Ended<S, K, E>
    ensures records { Records F.Files (option_map text_of file.entry) finish.end finish.schedule.threads
        files.old files.new result.status }
    ensures line { PutsLine E.Sink before result.status [] finish.errors result.errors }
    ensures schedule { result.schedule.threads ≡ finish.schedule.threads }
    ensures streams { (result.input ≡ finish.input) × (result.output ≡ finish.output) }
    ensures no_read { F.read_fault_count files.new ≡ F.read_fault_count files.old }
{
    let Finish {
        end,
        schedule,
        input,
        output,
        mut errors,
    } = finish;
    let status = put_record(alloc, file, files, end, &schedule);
    put_status(&status, before, &mut errors);
    Ended {
        status,
        schedule,
        input,
        output,
        errors,
    }
}

/// Closes a replay, which is not recorded: reports how the call ends, and then what the replay reports of itself.
pub(crate) fn close_reported<S, K, E: Sink>(
    before: u64,
    reported: Reported<S, K, E>,
) -> Ended<S, K, E>
    ensures status { result.status ≡ ended_status reported.finish.end }
    ensures line { PutsLine E.Sink before result.status reported.more reported.finish.errors result.errors }
    ensures schedule { result.schedule.threads ≡ reported.finish.schedule.threads }
    ensures streams { (result.input ≡ reported.finish.input) × (result.output ≡ reported.finish.output) }
{
    let Reported { finish, more } = reported;
    let Finish {
        end,
        schedule,
        input,
        output,
        mut errors,
    } = finish;
    let status = end.status();
    put_report(&status, more.as_bytes(), before, &mut errors);
    Ended {
        status,
        schedule,
        input,
        output,
        errors,
    }
}

/// Writes the schedule's text into the file that is named, if one is and memory was not refused in the run; and says
/// how the call ends then.
fn put_record<F: Files>(
    alloc: Global,
    file: Option<&str>,
    files: &mut F,
    end: End,
    schedule: &Schedule,
) -> Status
    ensures records { Records F.Files (option_map text_of file.entry) end schedule.now.threads
        files.old files.new result }
    ensures no_read { F.read_fault_count files.new ≡ F.read_fault_count files.old }
{
    let Some(name) = file else {
        return end.status();
    };
    if matches!(end, End::NoMemory) {
        return Status::NoMemory;
    }
    let Ok(text) = print(alloc, schedule) else {
        return Status::NoMemory;
    };
    match files.write(name, text.as_bytes()) {
        Ok(()) => end.status(),
        Err(_) => Status::WriteFault,
    }
}
