//! Texts cut at their last character.
ghost use Rattle.std.specs.Prelude.{◌≡◌, ◌<◌, ◌++◌, ◌∷◌, [], length, MatchOption, IfSome};
ghost use Rattle.tt_text.specs.Characters.{characters};
ghost use Rattle.tt_strings.specs.inside.Ends.{IsLastStart};

use tt_text::continues_character;

// The text before the last character, and that.
#[tactic(auto, using(crate::proofs::EndCuts::last_cut))]
pub(crate) fn split_last(text: &[u8]) -> Option<(&[u8], &[u8])>
    ensures cases { MatchOption result (text.now ≡ []) (λ parts. characters text.now ≡ characters parts.0.now
        ++ parts.1.now ∷ []) }
    ensures shorter { IfSome result (λ parts. length parts.0.now < length text.now) }
{
    let [_, ..] = text else {
        return None;
    };
    Some(text.split_at(last_start(text)))
}

// Where the last character begins.
fn last_start(text: &[u8]) -> usize
    requires { 0 < length text.now }
    ensures within { result < length text.now }
    ensures begins { IsLastStart text.now result }
{
    let mut at = text.len() - 1;
    while at > 0 && continues_character(text[at]) {
        at -= 1;
    }
    at
}
