ghost use Rattle.std.specs.Prelude.{◌≡◌, ◌%◌};

/// Whom a leave wakes of the passes that rest.
#[derive(Clone, Copy, Debug, PartialEq, Eq)]
pub enum Wakes {
    /// All of them.
    All,
    /// One of them, and those that are about to rest look again.
    One,
    /// None: for a turn that has no news for them.
    Nobody,
}

impl Wakes {
    // What a leave adds to word 0: one, so that it is even again, and if it has news one to its upper half, which
    // counts them. That the lower half runs over into the upper one after 2 ^ 32 steps is news too, which does no harm.
    #[inline]
    pub(crate) fn adds(self) -> u64
        ensures odd { result % 2 ≡ 1 }
    {
        match self {
            Wakes::All | Wakes::One => (1 << 32) + 1,
            Wakes::Nobody => 1,
        }
    }
}
