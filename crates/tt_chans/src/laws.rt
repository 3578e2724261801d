//! A law about the definitions, proved as the contract of a function that does nothing.
ghost use Rattle.tt_chans.specs.ChannelLaws.{LineLaw};

/// What is taken from a pipe is the front of what it holds.
pub fn lines_are_taken_from_the_front()
    ensures { LineLaw }
{}
