ghost use Rattle.std.specs.Prelude.{◌≡◌, ◌≢◌, ◌∷◌, ◌++◌, ℕ, List, IfSome, IfNone};
ghost use Rattle.tt_schedule.specs.ScheduleText.{IsLine, line_text};

use tt_ids::number_at;

/// A line of a schedule: a thread takes this many steps next.
#[derive(Clone, Copy, Debug, PartialEq, Eq)]
pub struct Line {
    /// The thread's number, from 1.
    pub thread: u32,
    /// How many steps, from 1.
    pub steps: u32,
}

/// The line at the front, and the text after it, or `None` exactly if the text begins with no line.
pub(crate) fn line_at(text: &[u8]) -> Option<(Line, &[u8])>
    ensures found { IfSome result (λ read. IsLine read.0 × (text.now ≡ line_text read.0 ++ read.1.now)) }
    ensures none { IfNone result ((line : _) (rest : List ℕ) → IsLine line → text.now ≢ line_text line ++ rest) }
{
    let (thread, rest) = number_at(text)?;
    let rest = after(rest, b' ')?;
    let (steps, rest) = number_at(rest)?;
    let rest = after(rest, b'\n')?;
    Some((Line { thread, steps }, rest))
}

/// The text after this byte, or `None` exactly if it doesn't begin with it.
fn after(text: &[u8], byte: u8) -> Option<&[u8]>
    ensures found { IfSome result (λ rest. text.now ≡ byte ∷ rest.now) }
    ensures none { IfNone result ((rest : List ℕ) → text.now ≢ byte ∷ rest) }
{
    match text {
        [first, rest @ ..] if *first == byte => Some(rest),
        _ => None,
    }
}
