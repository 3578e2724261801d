ghost use Rattle.std.specs.Prelude.{◌≡◌, ◌<◌, length, IfSome};
ghost use Rattle.tt_text.specs.Braces.{is_balanced, matching_brace};
ghost use Rattle.tt_text.specs.inside.BraceScan.{IsScan};

/// How the search for a closing brace ends in a text.
#[derive(Clone, Copy)]
enum Scan {
    /// At the brace of this place.
    Closes(usize),
    /// After the text, with this many inner braces open. The place is one further if a backslash
    /// ends the text.
    Ends(usize, usize),
}

/// How many bytes of a text that follows an open brace stand before the brace that closes it (Tcl(n),
/// rule 6).
///
/// A byte after a backslash is never a brace. `None` if no brace closes the open one.
#[tactic(auto, using(crate::proofs::BraceSearch::closes_alone, crate::proofs::BraceSearch::ends_alone))]
pub fn matching_brace(text: &[u8]) -> Option<usize>
    ensures place { result ≡ matching_brace text.now }
    ensures within { IfSome result (λ place. place < length text.now) }
{
    match search(text) {
        Scan::Closes(place) => Some(place),
        Scan::Ends(..) => None,
    }
}

/// Whether the text may stand in braces as it is (Tcl(n), rule 6): its braces match, and no backslash
/// is left alone at its end.
///
/// A byte after a backslash is never a brace.
#[tactic(auto, using(crate::proofs::BraceSearch::closes_within, crate::proofs::BraceSearch::ends_balanced))]
pub fn is_balanced(text: &[u8]) -> bool
    ensures { result ≡ is_balanced text.now }
{
    match search(text) {
        Scan::Closes(_) => false,
        Scan::Ends(depth, at) => depth == 0 && at == text.len(),
    }
}

fn search(text: &[u8]) -> Scan
    ensures { IsScan text.now result }
{
    let mut depth: usize = 0;
    let mut at = 0;
    while at < text.len() {
        let byte = text[at];
        if byte == b'\\' {
            at += 1;
        } else if byte == b'{' {
            depth += 1;
        } else if byte == b'}' {
            if depth == 0 {
                return Scan::Closes(at);
            }
            depth -= 1;
        }
        at += 1;
    }
    Scan::Ends(depth, at)
}
