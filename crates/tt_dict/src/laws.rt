//! Laws about the definitions, each proved as the contract of a function that does nothing.
ghost use Rattle.tt_dict.specs.DictLaws.{ChangedKeysLaw, MergeLaw, SamePairsLaw};

/// Two texts that are read as the same pairs give the same answers.
pub fn same_pairs_give_the_same_answers()
    ensures { SamePairsLaw }
{}

/// What a change leaves is a dictionary.
pub fn changes_leave_dictionaries()
    ensures { ChangedKeysLaw }
{}

/// Dictionaries are merged from the left.
pub fn merging_goes_from_the_left()
    ensures { MergeLaw }
{}
