ghost use Rattle.std.specs.Prelude.{◌≡◌, IfOk};
ghost use Rattle.tt_locks.specs.Table.{numbers_after, names_of, number_of, with_number};

use tt_calls::Kind;
use tt_ids::{IdKind, number_after};
use tt_text::NoMemory;

/// The number that the next lock of each kind draws, from 1.
#[derive(Clone, Copy, Debug)]
pub struct Numbers {
    pub exclusive: u64,
    pub recursive: u64,
    pub read_write: u64,
    pub condition: u64,
}

impl Numbers {
    // The number of the next of a kind.
    pub(crate) fn of(self, kind: Kind) -> u64
        ensures { result ≡ number_of kind self }
    {
        match kind {
            Kind::Exclusive => self.exclusive,
            Kind::Recursive => self.recursive,
            Kind::ReadWrite => self.read_write,
            Kind::Condition => self.condition,
        }
    }

    // The numbers after that one was drawn.
    pub(crate) fn drawn(self, kind: Kind) -> Result<Self, NoMemory>
        ensures { IfOk result (λ next. next ≡ numbers_after kind self) }
    {
        let number = number_after(self.of(kind))?;
        Ok(self.with(kind, number))
    }

    // The numbers with another one for the next of a kind.
    fn with(self, kind: Kind, number: u64) -> Self
        ensures { result ≡ with_number kind number self }
    {
        let mut next = self;
        match kind {
            Kind::Exclusive => next.exclusive = number,
            Kind::Recursive => next.recursive = number,
            Kind::ReadWrite => next.read_write = number,
            Kind::Condition => next.condition = number,
        }
        next
    }
}

// What the ids of a kind name.
pub(crate) fn names_of(kind: Kind) -> IdKind
    ensures { result ≡ names_of kind }
{
    match kind {
        Kind::Exclusive => IdKind::Exclusive,
        Kind::Recursive => IdKind::Recursive,
        Kind::ReadWrite => IdKind::ReadWrite,
        Kind::Condition => IdKind::Condition,
    }
}
