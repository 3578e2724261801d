ghost use Rattle.std.specs.Prelude.{◌≡◌, IfOk};
ghost use Rattle.tt_session.specs.Choosing.{HasRoom};

use std::alloc::Global;
use tt_core::Setup;
use tt_devices::{MemorySink, MemorySource};
use tt_session::{Course, Finish, run_course};
use tt_text::{NoMemory, Texts};

/// What each run of a search begins with: the script with its words, and all of standard input.
#[derive(Debug, Drop)]
pub(crate) struct Begun {
    pub(crate) setup: Setup,
    pub(crate) input: Vec<u8>,
}

/// A run over devices in memory.
pub(crate) type Trial = Finish<MemorySource, MemorySink, MemorySink>;

impl Begun {
    /// A second setup, the same.
    ///
    /// `NoMemory` if memory for it is refused.
    pub(crate) fn setup(&self, alloc: Global) -> Result<Setup, NoMemory>
        ensures { IfOk result (λ setup. setup ≡ self.now.setup) }
    {
        Ok(Setup {
            script: self.setup.script.copy()?,
            name: self.setup.name.copy()?,
            arguments: Texts::from_copies(alloc, self.setup.arguments.as_slice())?,
            limit: self.setup.limit,
        })
    }

    /// Standard input from its beginning.
    ///
    /// `NoMemory` if memory for its bytes is refused.
    pub(crate) fn source(&self, alloc: Global) -> Result<MemorySource, NoMemory> {
        let bytes = Vec::from_slice(alloc, self.input.as_slice())?;
        Ok(MemorySource::new(bytes, Vec::new(alloc)))
    }

    /// A run whose steps are chosen so.
    ///
    /// `NoMemory` if memory for what it begins with is refused.
    pub(crate) fn trial(&self, alloc: Global, course: &Course) -> Result<Trial, NoMemory>
        requires { HasRoom course.now }
    {
        let setup = self.setup(alloc)?;
        let input = self.source(alloc)?;
        let output = MemorySink::new(alloc, Vec::new(alloc));
        let errors = MemorySink::new(alloc, Vec::new(alloc));
        Ok(run_course(alloc, setup, course, input, output, errors))
    }
}
