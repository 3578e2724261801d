ghost use Rattle.std.specs.Prelude.{◌≡◌};
ghost use Rattle.std.specs.Arc.{arc_value};

use crate::pairing::Pairing;
use std::marker::Model;
use std::sync::Arc;
use tt_pairs::Dictionary;

/// The pairs of a dictionary (dict(n)), shared with the value that they were read from. Contracts see the list of them.
#[derive(Debug, Drop)]
pub struct Pairs {
    shared: Arc<Pairing>,
}

impl Model for Pairs {
    ghost use Rattle.std.specs.Prelude.{ℕ, List};
    ghost use Rattle.std.specs.Arc.{arc_value};

    ghost Value = { List (List ℕ × List ℕ) };

    ghost view = { λ pairs. (arc_value pairs.shared).pairs };
}

impl Pairs {
    pub(crate) fn of(shared: Arc<Pairing>) -> Self
        ensures pairs { result ≡ (arc_value shared).pairs }
    {
        Pairs { shared }
    }

    /// The dictionary.
    pub fn dictionary(&self) -> &Dictionary
        ensures pairs { result.now ≡ self.now }
    {
        self.shared.pairs()
    }
}
