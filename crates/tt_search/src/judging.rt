use crate::begun::Trial;
use tt_search_words::Difference;
use tt_session::End;

/// Whether a run is a find beside the run in turn: no thread could go on, it ended with another code, or, if that is
/// asked for, it wrote something else. One that came to its most steps is none.
pub(crate) fn is_find(in_turn: &Trial, trial: &Trial, difference: Difference) -> bool {
    match (in_turn.end, trial.end) {
        (_, End::Stalled) => true,
        (End::Done(code), End::Done(other)) => {
            code != other
                || matches!(difference, Difference::InEndOrOutput)
                    && !is_same_output(in_turn, trial)
        }
        _ => false,
    }
}

/// Whether two runs wrote the same.
fn is_same_output(one: &Trial, other: &Trial) -> bool {
    one.output.bytes() == other.output.bytes() && one.errors.bytes() == other.errors.bytes()
}

/// Whether a run was cut off for want of memory, which is also how a sink in memory fails.
pub(crate) fn is_out_of_memory(trial: &Trial) -> bool {
    matches!(trial.end, End::NoMemory | End::WriteFault | End::ReadFault)
}
