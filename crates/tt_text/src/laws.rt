//! What the definitions that other crates cite say together. Nothing runs here.
ghost use Rattle.tt_text.specs.Braces.{BalancedLaw, MatchingBraceLaw};
ghost use Rattle.tt_text.specs.Characters.{CharacterLaws};
ghost use Rattle.tt_text.specs.GlobFunction.{GlobLaw};

use crate::{Text, Texts};

/// The matching brace is the one up to which the text is balanced (Tcl(n), rule 6).
pub fn matching_brace_law()
    ensures law { MatchingBraceLaw }
    ensures balanced { BalancedLaw }
{}

/// A text is its characters, and no two of them could be one (string(n)).
pub fn character_law()
    ensures { CharacterLaws }
{}

/// The function of glob patterns answers which of them match (string(n), string match).
pub fn glob_law()
    ensures law { GlobLaw }
{}

/// A text, and a list of them, may move to another thread and be shared by threads.
pub fn texts_cross_threads() {
    crosses_threads::<Text>();
    crosses_threads::<Texts>();
}

fn crosses_threads<T: Send + Sync>() {}
