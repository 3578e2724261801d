//! Laws about the definitions, each proved as the contract of a function that does nothing.
ghost use Rattle.laws_shared.specs.Example.{WorkedHappenings};
ghost use Rattle.laws_shared.specs.Orderly.{OrderlyLaw};
ghost use Rattle.laws_shared.specs.SharedLaws.{ArraysAloneLaw, ChannelsAreKeptLaw, GoesOnLaw, HeldAloneLaw};
ghost use Rattle.laws_shared.specs.SharedLaws.{HoldStaysLaw, NotOwnedLaw, OneHolderLaw, OthersWaitLaw, PipeLaw};
ghost use Rattle.laws_shared.specs.SharedLaws.{StaysOwnLaw};

/// A run goes on by an action that can happen.
pub fn runs_go_on()
    ensures { GoesOnLaw }
{}

/// What threads do to arrays is what their calls on shared variables alone come to.
pub fn arrays_stand_alone()
    ensures { ArraysAloneLaw }
{}

/// Who asks what is on an array that another thread holds waits.
pub fn others_wait_for_held_arrays()
    ensures { OthersWaitLaw }
{}

/// What is done on a held array is done by its holder, until the end of its last hold.
pub fn held_arrays_are_alone()
    ensures { HeldAloneLaw }
{}

/// A mutex that is held, or a lock that is written, has one holder.
pub fn locks_have_one_holder()
    ensures { OneHolderLaw }
{}

/// While a thread holds a lock it holds it as it did, and of one that it holds alone nobody else gets a hold.
pub fn holds_stay()
    ensures { HoldStaysLaw }
{}

/// What a thread asks of a channel that it does not own is refused.
pub fn channels_answer_their_owner()
    ensures { NotOwnedLaw }
{}

/// A thread owns a channel until it gives it up.
pub fn owners_stay()
    ensures { StaysOwnLaw }
{}

/// A channel that is not closed has an owner that lives, or none, or is on its way to one.
pub fn channels_are_kept()
    ensures { ChannelsAreKeptLaw }
{}

/// What is taken from a pipe is the front of what is put into it.
pub fn pipes_keep_their_bytes()
    ensures { PipeLaw }
{}

/// Each action of a run is orderly.
pub fn runs_are_orderly()
    ensures { OrderlyLaw }
{}

/// What happens in runs of the example.
pub fn worked_happenings()
    ensures { WorkedHappenings }
{}
