ghost use Rattle.std.specs.Prelude.{◌≡◌};
ghost use Rattle.tt_script.specs.declared.stop.Stop.TheVariants.{NoMemory, Fault};

use crate::command::ParseFault;
use std::alloc::AllocFailed;
use tt_text::NoMemory;

/// Why the parser stopped before its end.
#[derive(Debug, Drop)]
pub(crate) enum Stop {
    /// Memory was refused.
    NoMemory,
    /// The text has no command.
    Fault(ParseFault),
}

impl From<NoMemory> for Stop {
    ghost from_gives = { λ _ stop. stop ≡ NoMemory };

    fn from(_: NoMemory) -> Self {
        Stop::NoMemory
    }
}

impl<T: Drop> From<AllocFailed<T>> for Stop {
    ghost from_gives = { λ _ stop. stop ≡ NoMemory };

    fn from(_: AllocFailed<T>) -> Self {
        Stop::NoMemory
    }
}

impl From<ParseFault> for Stop {
    ghost from_gives = { λ fault stop. stop ≡ Fault fault };

    fn from(fault: ParseFault) -> Self {
        Stop::Fault(fault)
    }
}
