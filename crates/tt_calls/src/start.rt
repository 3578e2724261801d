ghost use Rattle.std.specs.Prelude.{◌≡◌, IfOk};

use tt_text::{NoMemory, Text};

/// What a thread begins with (thread(n), tpool(n)).
#[derive(Debug, Drop)]
pub enum Start {
    /// A script, which is evaluated once.
    Script(Text),
    /// The jobs of a pool, after the pool's script for new workers and before the one for workers that end.
    Worker { pool: Text, init: Text, exit: Text },
}

impl Start {
    /// A second start that is equal.
    ///
    /// `NoMemory` if the memory for it is refused.
    pub fn copy(&self) -> Result<Start, NoMemory>
        ensures copied { IfOk result (λ start. start ≡ self.now) }
    {
        match self {
            Start::Script(script) => Ok(Start::Script(script.copy()?)),
            Start::Worker { pool, init, exit } => Ok(Start::Worker {
                pool: pool.copy()?,
                init: init.copy()?,
                exit: exit.copy()?,
            }),
        }
    }
}
