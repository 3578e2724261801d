ghost use Rattle.std.specs.Prelude.{◌≡◌};
ghost use Rattle.tt_words.specs.inside.Program.{bare};

/// An option of the program, or a flag.
#[derive(Clone, Copy)]
pub(crate) enum Setting {
    /// How many workers carry the threads.
    Workers,
    /// The most steps of a run.
    Steps,
    /// The most units of one thread.
    Limit,
    /// The file that keeps the schedule.
    Record,
    /// The file that has the schedule.
    Replay,
    /// The number that the script is made of.
    Generate,
    /// The flag for the report on who waits for whom.
    Waits,
    /// The flag for the report on steps that race.
    Races,
    /// The file that has the debugger's commands.
    Debug,
}

impl Setting {
    /// Its name, without the two dashes.
    pub(crate) fn name<'a>(self) -> &'a str
        ensures { result.now ≡ bare self }
    {
        match self {
            Setting::Workers => "workers",
            Setting::Steps => "steps",
            Setting::Limit => "limit",
            Setting::Record => "record",
            Setting::Replay => "replay",
            Setting::Generate => "generate",
            Setting::Waits => "waits",
            Setting::Races => "races",
            Setting::Debug => "debug",
        }
    }
}
