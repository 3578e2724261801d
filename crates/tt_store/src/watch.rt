ghost use Rattle.std.specs.Prelude.{◌≡◌};
ghost use Rattle.tt_store.specs.Held.{AreMarked, IsMarked};
ghost use Rattle.tt_store.specs.Spots.{place_in};

use crate::nesting::Nesting;
use crate::spot::Spot;
use tt_text::Text;

/// A global variable that is waited for (vwait(n)).
#[derive(Debug, Drop)]
pub(crate) struct Watch {
    pub(crate) name: Text,
    pub(crate) index: Option<Text>,
    /// Whether it was written since the wait began.
    pub(crate) seen: bool,
}

/// What a spot stands for was written.
pub(crate) fn mark(nesting: &Nesting, spot: &Spot, watches: &mut [Watch])
    ensures { AreMarked nesting.now.frames (place_in nesting.now.current spot.now) watches.old watches.new }
{
    for watch in watches {
        mark_one(nesting, spot, watch);
    }
}

fn mark_one(nesting: &Nesting, spot: &Spot, watch: &mut Watch)
    ensures { IsMarked nesting.now.frames (place_in nesting.now.current spot.now) watch.old watch.new }
{
    let same = nesting.is_same(spot, &watch.name, watch.index.as_ref());
    watch.seen = watch.seen || same;
}
