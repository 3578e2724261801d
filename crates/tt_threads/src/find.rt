ghost use Rattle.std.specs.Prelude.{◌≡◌, ◌≢◌, ◌<◌, ◌≤◌, ◌^◌, ℕ, IfNone, IfSome, length};
ghost use Rattle.tt_ids.specs.Ids.{id as id_of};
ghost use Rattle.tt_ids.specs.declared.id.IdKind.TheVariants.{Thread};
ghost use Rattle.tt_threads.specs.Rows.{linked_thread, thread_of_id};

use crate::Row;
use tt_ids::{IdKind, id_number};

/// The linked thread of this id.
pub(crate) fn linked(rows: &[Row], id: &[u8]) -> Option<u32>
    requires { length rows.now < 2 ^ 32 }
    ensures { result ≡ linked_thread rows.now id.now }
{
    match number_within(id, rows.len()) {
        Some(number) if rows[number as usize - 1].life.is_linked() => Some(number),
        _ => None,
    }
}

/// The thread of this id, whatever became of it.
pub(crate) fn thread_of_id(rows: &[Row], id: &[u8]) -> Option<u32>
    requires { length rows.now < 2 ^ 32 }
    ensures { result ≡ thread_of_id rows.now id.now }
{
    let number = number_within(id, rows.len());
    number
}

// The number of the thread of this id, if so many were made.
fn number_within(id: &[u8], count: usize) -> Option<u32>
    requires { count < 2 ^ 32 }
    ensures found { IfSome result (λ n. (1 ≤ n) × (n ≤ count) × (id.now ≡ id_of Thread n)) }
    ensures none { IfNone result ((n : ℕ) → 1 ≤ n → n ≤ count → id.now ≢ id_of Thread n) }
{
    match id_number(IdKind::Thread, id) {
        Some(number) if number >= 1 && number <= count as u64 => Some(number as u32),
        _ => None,
    }
}
