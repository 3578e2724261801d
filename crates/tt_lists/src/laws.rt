//! Laws about the definitions, each proved as the contract of a function that does nothing.
ghost use Rattle.tt_lists.specs.Indices.{IndexLaw};
ghost use Rattle.tt_lists.specs.Reading.{SplitLaw};

/// A text is split into the items that it lists by the grammar of Tcl(n), or answered by its fault, and
/// each text is one of the two in one way.
pub fn texts_are_split_by_the_grammar()
    ensures { SplitLaw }
{}

/// A text is read as the index that it is by the grammar of lindex(n), and if it is none as none.
pub fn indices_are_read_by_the_grammar()
    ensures { IndexLaw }
{}
