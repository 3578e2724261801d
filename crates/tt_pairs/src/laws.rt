//! Laws about the definitions, each proved as the contract of a function that does nothing.
ghost use Rattle.tt_pairs.specs.PairLaws.{KeysLaw, OtherValuesLaw, ReadsBackLaw};

/// The keys of a dictionary differ: of one that was read, and after each change.
pub fn keys_differ()
    ensures { KeysLaw }
{}

/// The canonical text of pairs whose keys differ is read as those pairs.
pub fn texts_are_read_back()
    ensures { ReadsBackLaw }
{}

/// A key that is given a value has it, one that was taken out has none, and every other key keeps its value.
pub fn other_values_stay()
    ensures { OtherValuesLaw }
{}
