//! What holds of the definitions.
ghost use Rattle.tclsearch.specs.FindLaws.{FindLaw};

use tt_devices::{Files, MemorySource, Sink, Source};
use tt_session::laws::recorded_runs_are_replayed;

/// A find is replayed after its own schedule by `tclthread`, with the same steps, bytes and end.
pub fn finds_are_replayed<F: Files, S: Source, K: Sink, E: Sink>()
    ensures { FindLaw F.Files S.Source K.Sink E.Sink }
{
    recorded_runs_are_replayed::<F, MemorySource, S, K, E>();
}
