ghost use Rattle.std.specs.Prelude.{◌≡◌};
ghost use Rattle.tt_session.specs.Status.{ended_status, exit_of, refused_status};

use tt_text::Text;

/// Where something is wrong.
#[derive(Clone, Copy, Debug, PartialEq, Eq)]
pub enum Place {
    /// The offset of a line of a schedule's text, in bytes.
    Byte(u64),
    /// The number of an entry of a schedule, counted from 1.
    Entry(u64),
}

/// How a call of the program ended.
#[derive(Debug, Drop)]
pub enum Status {
    /// The run is over, with this code.
    Done(u8),
    /// The words ask for nothing.
    Usage,
    /// There is no file of this name.
    NoFile(Text),
    /// The schedule's text is none, or a thread can't take the step of an entry.
    BadSchedule(Place),
    /// The schedule, whose races are asked for, has so many entries, more than there may be.
    TooLong(u64),
    /// All steps of the schedule were taken, and the run isn't over.
    ScheduleEnded,
    /// No thread can take a step, and the run isn't over.
    Stalled,
    /// As many steps were taken as there may be, and a thread could go on.
    StepLimit(u64),
    /// A file or standard input could not be read.
    ReadFault,
    /// Standard output, standard error or the file that records the schedule could not be written.
    WriteFault,
    /// Memory was refused.
    NoMemory,
}

/// How a run ended.
#[derive(Clone, Copy, Debug, PartialEq, Eq)]
pub enum End {
    /// It is over, with this code.
    Done(u8),
    /// All steps of the schedule were taken, and it isn't over.
    ScheduleEnded,
    /// The thread of this entry of the schedule, counted from 1, can't take its step.
    Barred(u64),
    /// No thread can take a step, and it isn't over.
    Stalled,
    /// As many steps were taken as there may be, and a thread could go on.
    StepLimit(u64),
    /// Standard input could not be read.
    ReadFault,
    /// Standard output or standard error could not be written.
    WriteFault,
    /// Memory was refused.
    NoMemory,
}

/// Why there was no run.
#[derive(Debug, Drop)]
pub enum Refusal {
    /// The words ask for nothing.
    Usage,
    /// There is no file of this name.
    NoFile(Text),
    /// The schedule's text is none; this is the offset of its first wrong line, in bytes.
    BadText(u64),
    /// The schedule, whose races are asked for, has so many entries, more than there may be.
    TooLong(u64),
    /// A file could not be read.
    ReadFault,
    /// Memory was refused.
    NoMemory,
}

impl End {
    /// How a call ends whose run ended so.
    pub fn status(self) -> Status
        ensures { result ≡ ended_status self }
    {
        match self {
            End::Done(code) => Status::Done(code),
            End::ScheduleEnded => Status::ScheduleEnded,
            End::Barred(entry) => Status::BadSchedule(Place::Entry(entry)),
            End::Stalled => Status::Stalled,
            End::StepLimit(steps) => Status::StepLimit(steps),
            End::ReadFault => Status::ReadFault,
            End::WriteFault => Status::WriteFault,
            End::NoMemory => Status::NoMemory,
        }
    }
}

impl Refusal {
    /// How a call ends that had no run for this reason.
    pub fn status(self) -> Status
        ensures { result ≡ refused_status self }
    {
        match self {
            Refusal::Usage => Status::Usage,
            Refusal::NoFile(name) => Status::NoFile(name),
            Refusal::BadText(offset) => Status::BadSchedule(Place::Byte(offset)),
            Refusal::TooLong(entries) => Status::TooLong(entries),
            Refusal::ReadFault => Status::ReadFault,
            Refusal::NoMemory => Status::NoMemory,
        }
    }
}

impl Status {
    /// The exit code of the program.
    pub fn exit(&self) -> u8
        ensures { result ≡ exit_of self.now }
    {
        match self {
            Status::Done(code) => *code,
            Status::Usage => 106,
            Status::NoFile(_) => 107,
            Status::BadSchedule(_) => 108,
            Status::TooLong(_) => 111,
            Status::ScheduleEnded => 109,
            Status::Stalled => 101,
            Status::StepLimit(_) => 102,
            Status::ReadFault => 104,
            Status::WriteFault => 105,
            Status::NoMemory => 103,
        }
    }
}
