//! Laws about the definitions, each proved as the contract of a function that does nothing.
ghost use Rattle.tt_debug.specs.DebugLaws.{ShownOnceLaw};

/// What a line shows, and where it leads, depends on the place alone.
pub fn shown_once()
    ensures { ShownOnceLaw }
{}
