ghost use Rattle.std.specs.Prelude.{◌≡◌};
ghost use Rattle.tt_search.specs.Searched.{exit_of_search};

use tt_session::Status;

/// How a search ended.
#[derive(Debug, Drop)]
pub enum SearchEnd {
    /// No run ended otherwise than the first.
    Sound,
    /// A run did. Its schedule was followed over the given devices, and that call ended so.
    Found(Status),
    /// There was no search, or memory was refused in it: how a call ends for this reason.
    Refused(Status),
}

/// What a search leaves.
#[derive(Debug, Drop)]
pub struct Searched<S, K, E> {
    /// How it ended.
    pub end: SearchEnd,
    /// Standard input.
    pub input: S,
    /// Standard output.
    pub output: K,
    /// Standard error.
    pub errors: E,
}

impl SearchEnd {
    /// The exit code: 0 if nothing was found, 1 after a find, and else the code of the status.
    pub fn exit(&self) -> u8
        ensures { result ≡ exit_of_search self.now }
    {
        match self {
            SearchEnd::Sound => 0,
            SearchEnd::Found(Status::WriteFault) => Status::WriteFault.exit(),
            SearchEnd::Found(Status::NoMemory) => Status::NoMemory.exit(),
            SearchEnd::Found(_) => 1,
            SearchEnd::Refused(status) => status.exit(),
        }
    }
}
