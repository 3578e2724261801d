//! What holds of the definitions.
ghost use Rattle.tt_search_words.specs.WordLaws.{OneReadingLaw};

/// Words ask for one search at most.
pub fn one_reading()
    ensures { OneReadingLaw }
{}
