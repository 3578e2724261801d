ghost use Rattle.std.specs.Prelude.{◌≡◌};

/// What a table says of a command.
#[derive(Clone, Copy)]
pub struct Row {
    /// Its name.
    pub name: &'static [u8],
    /// How it is used.
    pub usage: &'static [u8],
}

impl Row {
    /// A row of a name and a usage.
    pub fn new(name: &'static [u8], usage: &'static [u8]) -> Self
        ensures name { result.name.now ≡ name.now }
        ensures usage { result.usage.now ≡ usage.now }
    {
        Row { name, usage }
    }
}
