//! A law about the definitions, proved as the contract of a function that does nothing.
ghost use Rattle.tt_locks.specs.LockLaws.{OneHolderLaw};

/// An exclusive mutex is held once at most, a recursive one by one thread, and who writes holds a read-write lock
/// alone.
pub fn locks_have_one_holder()
    ensures { OneHolderLaw }
{}
