ghost use Rattle.std.specs.Prelude.{◌≡◌, ◌++◌, OnOk, OnErr};
ghost use Rattle.std.specs.List.{list_all};
ghost use Rattle.tt_text.specs.Characters.{begins_character};

use crate::NoMemory;
use crate::characters::is_narrow;
use std::marker::Model;

/// Many bytes, and whether each of them begins a character. Contracts see the list.
///
/// That is found as the bytes come, so that whoever asks for it looks at none.
#[derive(Debug, Drop)]
pub(crate) struct Many {
    bytes: Vec<u8>,
    narrow: bool,
}

impl Model for Many {
    ghost use Rattle.std.specs.Prelude.{◌≡◌, ℕ, List};
    ghost use Rattle.std.specs.List.{list_all};
    ghost use Rattle.tt_text.specs.Characters.{begins_character};

    ghost Value = { List ℕ };

    ghost view = { λ many. many.bytes.items };

    ghost invariant = { λ many. many.narrow ≡ list_all begins_character many.bytes.items };
}

impl Many {
    pub(crate) fn from_vec(bytes: Vec<u8>) -> Self
        ensures bytes { result ≡ bytes.items }
    {
        let narrow = is_narrow(bytes.as_slice());
        Many { bytes, narrow }
    }

    pub(crate) fn into_vec(self) -> Vec<u8>
        ensures bytes { result.items ≡ self }
    {
        let Many { bytes, .. } = self;
        bytes
    }

    pub(crate) fn as_slice(&self) -> &[u8]
        ensures bytes { result.now ≡ self.now }
    {
        self.bytes.as_slice()
    }

    /// Whether each byte begins a character.
    pub(crate) fn is_narrow(&self) -> bool
        ensures narrow { result ≡ list_all begins_character self.now }
    {
        self.narrow
    }

    /// `NoMemory` if memory is refused; then nothing has changed.
    pub(crate) fn push(&mut self, bytes: &[u8]) -> Result<(), NoMemory>
        ensures pushed { OnOk result (self.new ≡ self.old ++ bytes.now) }
        ensures unchanged { OnErr result (self.new ≡ self.old) }
    {
        let narrow = self.narrow && is_narrow(bytes);
        self.bytes.extend_from_slice(bytes)?;
        self.narrow = narrow;
        Ok(())
    }
}
