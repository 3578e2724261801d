//! Warshall's closing of marks: in the end a place is marked wherever a walk over marks leads.
ghost use Rattle.std.specs.Prelude.{◌≡◌, ◌<◌, ℕ, ◌⊎◌, ◌↔◌};
ghost use Rattle.tt_waits.specs.inside.Leading.{Leads};
ghost use Rattle.tt_waits.specs.inside.Marks.{IsMarked};

use crate::rows::Rows;

/// Marks each place wherever a walk over the marks leads from it.
pub(crate) fn close(rows: &mut Rows)
    ensures count { rows.new.count ≡ rows.old.count }
    ensures marks { (i j : ℕ) → IsMarked rows.new i j ↔ Leads (IsMarked rows.old) rows.old.count i j }
{
    for stop in 0..rows.count {
        pass_over(rows, stop);
    }
}

/// Marks each place that is marked at `stop` wherever `stop` is marked.
fn pass_over(rows: &mut Rows, stop: usize)
    requires { stop < rows.old.count }
    ensures count { rows.new.count ≡ rows.old.count }
    ensures marks { (i j : ℕ) →
        IsMarked rows.new i j ↔ (IsMarked rows.old i j ⊎ (IsMarked rows.old i stop × IsMarked rows.old stop j)) }
{
    for place in 0..rows.count {
        if rows.is_marked(place, stop) {
            rows.join(place, stop);
        }
    }
}
