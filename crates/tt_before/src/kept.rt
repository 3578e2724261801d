//! The steps that touch shared arrays.
ghost use Rattle.std.specs.Prelude.{◌≡◌, ◌++◌, OnOk};
ghost use Rattle.tt_before.specs.inside.Keeping.{touches_made};

use crate::Touched;
use crate::clocks::Told;
use tt_text::NoMemory;

/// A step that touches an array, with what its thread's clock had then.
#[derive(Debug, Drop)]
pub(crate) struct Touch {
    /// Where its entry stands, counted from 0.
    pub(crate) place: u64,
    pub(crate) thread: u32,
    /// Which of its thread's steps it is, counted from 1.
    pub(crate) rank: u16,
    /// How many first steps of each thread are before it.
    pub(crate) row: Vec<u16>,
    pub(crate) touched: Touched,
}

/// Puts a step last, if it touches an array.
///
/// `NoMemory` if memory for it is refused.
pub(crate) fn keep(
    touches: &mut Vec<Touch>,
    place: u64,
    thread: u32,
    told: Told,
    touched: Option<Touched>,
) -> Result<(), NoMemory>
    ensures { OnOk result (touches.new.items ≡ touches.old.items ++ touches_made place thread told touched) }
{
    let Some(touched) = touched else {
        return Ok(());
    };
    touches.push(Touch {
        place,
        thread,
        rank: told.rank,
        row: told.row,
        touched,
    })?;
    Ok(())
}
