ghost use Rattle.std.specs.Prelude.{List};

/// What ties a state under a lock to the notes of the lock's passes.
pub trait Tie {
    /// What the lock guards. It goes from thread to thread, and is never copied.
    type State: Send;

    /// What one pass says of the state. The lock keeps its meaning alone, so a note is dropped when its leave ends.
    type Note: Drop;

    // When a state fits the notes of all passes, which are listed by number.
    ghost fits: { Self.State → List Self.Note → Type 0 };
}
