//! What holds of the definitions.
ghost use Rattle.tt_lines.specs.Lines.{OneLineLaw};

/// Of the same bytes one line is read, and the same bytes are left (gets(n)).
pub fn one_line()
    ensures { OneLineLaw }
{}
