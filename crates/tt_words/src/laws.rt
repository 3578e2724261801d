//! What holds of the definitions.
ghost use Rattle.tt_words.specs.WordLaws.{OneReadingLaw, OptionsSwapLaw, WordSwapLaw};

/// Words ask for one thing at most.
pub fn one_reading()
    ensures { OneReadingLaw }
{}

/// The order of options and flags doesn't matter: two that stand side by side ask for the same in either order, and so
/// do one of them and an ordinary word.
pub fn order_of_options()
    ensures options { OptionsSwapLaw }
    ensures words { WordSwapLaw }
{}
