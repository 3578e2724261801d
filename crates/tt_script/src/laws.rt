//! What the definitions that other crates cite say together. Nothing runs here.
ghost use Rattle.tt_script.specs.ByteClasses.{ByteClassLaw};
ghost use Rattle.tt_script.specs.Names.{ElementNameLaw};
ghost use Rattle.tt_script.specs.GrammarLaw.{CommandLaw, NothingLaw, FaultLaw, FirstFaultLaw};

/// The function that `first_command` answers by is the command grammar of Tcl(n): it has a command
/// exactly if the grammar cuts one off, and that one, and a fault exactly if no cut is possible:
/// the one that is met first from the left, with the place of the command's first byte.
pub fn grammar_law()
    ensures command { CommandLaw }
    ensures nothing { NothingLaw }
    ensures fault { FaultLaw }
    ensures first_fault { FirstFaultLaw }
{}

/// White space, newlines, blanks and first bytes of characters are the same bytes for the scans of `tt_lanes`
/// as for the texts of `tt_text`, of which neither stands on the other.
pub fn byte_class_law()
    ensures { ByteClassLaw }
{}

/// A name is split by `split_name` exactly if it is an element's.
pub fn element_name_law()
    ensures { ElementNameLaw }
{}
