ghost use Rattle.std.specs.Prelude.{◌≡◌};
ghost use Rattle.tt_search_words.specs.Parts.{is_same, name_of, takes_value};
ghost use Rattle.tt_search_words.specs.inside.Places.{first_named, setting_named};

/// An option of the program.
#[derive(Clone, Copy)]
pub(crate) enum Setting {
    /// The most runs.
    Runs,
    /// The number that schedules are made of.
    Seed,
    /// At how many places a run lowers a priority.
    Switches,
    /// The most steps of one run.
    Steps,
    /// The most units of one thread.
    Limit,
    /// How many workers carry the threads.
    Workers,
    /// What a run wrote counts too.
    Differ,
    /// The file that keeps a find.
    Record,
}

const SETTINGS: [Setting; 8] = [
    Setting::Runs,
    Setting::Seed,
    Setting::Switches,
    Setting::Steps,
    Setting::Limit,
    Setting::Workers,
    Setting::Differ,
    Setting::Record,
];

impl Setting {
    /// Its name, with the two dashes.
    pub(crate) fn name<'a>(self) -> &'a str
        ensures { result.now ≡ name_of self }
    {
        match self {
            Setting::Runs => "--runs",
            Setting::Seed => "--seed",
            Setting::Switches => "--switches",
            Setting::Steps => "--steps",
            Setting::Limit => "--limit",
            Setting::Workers => "--workers",
            Setting::Differ => "--differ",
            Setting::Record => "--record",
        }
    }

    /// Whether it has a value.
    pub(crate) fn takes_value(self) -> bool
        ensures { result ≡ takes_value self }
    {
        !matches!(self, Setting::Differ)
    }

    /// Whether it is this option.
    pub(crate) fn is_same(self, other: Setting) -> bool
        ensures { result ≡ is_same self other }
    {
        self.name() == other.name()
    }
}

/// The option of a name.
pub(crate) fn setting_named(name: &str) -> Option<Setting>
    ensures { result ≡ setting_named name.now }
{
    first_named(&SETTINGS, name)
}

fn first_named(settings: &[Setting], name: &str) -> Option<Setting>
    ensures { result ≡ first_named settings.now name.now }
{
    settings
        .iter()
        .copied()
        .find(|setting| name == setting.name())
}
