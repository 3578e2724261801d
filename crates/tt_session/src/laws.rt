//! What holds of the definitions.
ghost use Rattle.tt_session.specs.AnswerLaws.{OneAnswerLaw, ReplayLaw};

use tt_devices::{Files, Sink, Source};

/// Two answers to the same words, files and input, neither of which is a fault or out of memory, are the same, and so
/// are the steps and the bytes on both sinks: of a plain run, if the steps are the same.
pub fn one_answer<F: Files, S: Source, K: Sink, E: Sink>()
    ensures { OneAnswerLaw F.Files S.Source K.Sink E.Sink }
{}

/// A run is replayed after its own schedule with the same steps and the same bytes, whatever sources give the same
/// input.
pub fn recorded_runs_are_replayed<F: Files, S: Source, T: Source, K: Sink, E: Sink>()
    ensures { ReplayLaw F.Files S.Source T.Source K.Sink E.Sink }
{}
