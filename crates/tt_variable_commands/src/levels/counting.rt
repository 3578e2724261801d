//! Levels: which frame a word means (upvar(n), uplevel(n)).
ghost use Rattle.std.specs.Prelude.{◌≡◌, ◌≤◌, ◌==◌, IfSome, IsTrue, length};
ghost use Rattle.tt_variable_commands.specs.Counting as counting;

use tt_number::digits_of;
use tt_store::Store;

/// The frame of a level: `N` is N callers up from the current one, `#N` counts along the callers from the global
/// frame. `None` if the word is no level, or there are fewer frames.
pub(crate) fn frame_of(store: &Store, level: &[u8]) -> Option<u64>
    ensures frame { counting.IsFrame level.now store.now.levels result }
    ensures lower { IfSome result (λ frame. frame ≤ store.now.levels.current) }
{
    if is_numbered(level) {
        frame_along(store, digits_of(10, &level[1..]))
    } else {
        frame_up(store, digits_of(10, level))
    }
}

fn is_numbered(level: &[u8]) -> bool
    ensures numbered { result ≡ counting.is_numbered level.now }
    ensures within { IsTrue result → 1 ≤ length level.now }
{
    matches!(level, [b'#', ..])
}

fn frame_up(store: &Store, count: Option<u64>) -> Option<u64>
    ensures frame { result ≡ counting.frame_up store.now.levels count }
    ensures lower { IfSome result (λ frame. frame ≤ store.now.levels.current) }
{
    match count {
        Some(count) => store.above(count),
        None => None,
    }
}

fn frame_along(store: &Store, number: Option<u64>) -> Option<u64>
    ensures frame { counting.IsAlong store.now.levels number result }
    ensures lower { IfSome result (λ frame. frame ≤ store.now.levels.current) }
{
    match number {
        Some(number) => frame_below(store, store.depth(), number),
        None => None,
    }
}

fn frame_below(store: &Store, depth: u64, number: u64) -> Option<u64>
    ensures frame { result ≡ counting.frame_below store.now.levels depth number }
    ensures lower { IfSome result (λ frame. frame ≤ store.now.levels.current) }
{
    if number <= depth {
        store.above(depth - number)
    } else {
        None
    }
}

/// Whether the global frame is the current one.
pub(crate) fn is_global(store: &Store) -> bool
    ensures { result ≡ store.now.levels.current == 0 }
{
    matches!(store.above(0), Some(0))
}
