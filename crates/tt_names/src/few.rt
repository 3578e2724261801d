ghost use Rattle.std.specs.Prelude.{◌≡◌, ◌<◌, length, IfSome};
ghost use Rattle.tt_names.specs.Names.{place_of};

use tt_text::Text;

/// Which of few names one is, counted from 0. They are searched from the first on.
#[tactic(auto, using(crate::proofs::Places::found_in_keys, crate::proofs::Places::place_within))]
pub(crate) fn place_of<V>(pairs: &[(Text, V)], name: &Text) -> Option<usize>
    ensures place { result ≡ place_of pairs.now name.now }
    ensures within { IfSome result (λ place. place < length pairs.now) }
{
    pairs.iter().position(|pair| *name == pair.0)
}
