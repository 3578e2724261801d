ghost use Rattle.std.specs.Prelude.{◌≡◌};

/// What the table says of a subcommand, beside its meaning.
#[derive(Clone, Copy)]
pub(crate) struct Row {
    /// Its name.
    pub(crate) name: &'static [u8],
    /// How it is used.
    pub(crate) usage: &'static [u8],
}

impl Row {
    pub(crate) fn new(name: &'static [u8], usage: &'static [u8]) -> Self
        ensures name { result.name.now ≡ name.now }
        ensures usage { result.usage.now ≡ usage.now }
    {
        Row { name, usage }
    }
}
