//! Rows of clocks: how many of a thread's first steps are known, under the number of the thread.
ghost use Rattle.std.specs.Prelude.{◌≡◌, ◌<◌, ◌≤◌, ◌⊎◌, ◌↔◌, ℕ, IfOk, OnOk, slice_index, vec_len};
ghost use Rattle.tt_before.specs.inside.Clocks.{IsJoin, IsOneMore};

use tt_text::NoMemory;

/// Makes a row at least so long. What is missing is 0.
fn lengthen(row: &mut Vec<u16>, length: usize) -> Result<(), NoMemory>
    ensures same { (thread : ℕ) → slice_index row.new.items thread ≡ slice_index row.old.items thread }
    ensures long { OnOk result (length ≤ vec_len row.new) }
{
    for _have in row.len()..length {
        row.push(0)?;
    }
    Ok(())
}

/// Puts into a row what another has.
///
/// `NoMemory` if memory for it is refused.
pub(crate) fn join(row: &mut Vec<u16>, other: &[u16]) -> Result<(), NoMemory>
    ensures { OnOk result (IsJoin (slice_index row.new.items) (slice_index row.old.items) (slice_index other.now)) }
{
    lengthen(row, other.len())?;
    for thread in 0..other.len() {
        raise(row, thread, other[thread]);
    }
    Ok(())
}

/// Makes the number at a place at least so much.
fn raise(row: &mut Vec<u16>, place: usize, least: u16)
    requires within { place < vec_len row.old }
    ensures len { vec_len row.new ≡ vec_len row.old }
    ensures raised { (thread n : ℕ) → n ≤ slice_index row.new.items thread ↔
        (n ≤ slice_index row.old.items thread ⊎ ((thread ≡ place) × (n ≤ least))) }
{
    if row[place] < least {
        row[place] = least;
    }
}

/// Counts one step more of a thread, and answers how many it has now.
///
/// `NoMemory` if memory for it is refused.
pub(crate) fn count_step(row: &mut Vec<u16>, thread: u32) -> Result<u16, NoMemory>
    ensures counted { OnOk result (IsOneMore thread (slice_index row.old.items) (slice_index row.new.items)) }
    ensures count { IfOk result (λ count. count ≡ slice_index row.new.items thread) }
{
    let place = thread as usize;
    lengthen(row, place + 1)?;
    let count = row[place].checked_add(1).ok_or(NoMemory)?;
    row[place] = count;
    Ok(count)
}
