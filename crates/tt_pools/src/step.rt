ghost use Rattle.std.specs.Prelude.{◌≡◌};
ghost use Rattle.tt_pools.specs.Calls.{replies, waiting};

use tt_calls::{Reply, Start, Step};

/// What a call on pools gives.
#[derive(Debug, Drop)]
pub struct PoolStep {
    pub step: Step,
    /// How many workers are to be made.
    pub start: u32,
    /// What each of them begins with; there exactly if some are to be made.
    pub worker: Option<Start>,
}

impl PoolStep {
    // The thread has to wait.
    pub(crate) fn waiting() -> Self
        ensures { result ≡ waiting }
    {
        PoolStep {
            step: Step::Wait,
            start: 0,
            worker: None,
        }
    }

    // A reply, for which no workers are made.
    pub(crate) fn reply(reply: Reply) -> Self
        ensures { result ≡ replies reply }
    {
        PoolStep {
            step: Step::Reply(reply),
            start: 0,
            worker: None,
        }
    }
}
