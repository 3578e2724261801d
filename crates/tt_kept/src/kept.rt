ghost use Rattle.std.specs.Prelude.{◌≡◌, IfOk};
ghost use Rattle.tt_kept.specs.Beginning as beginning;

use crate::Setup;
use std::alloc::Global;
use tt_lists::join_list;
use tt_number::whole_text;
use tt_procedures::{Argument, Procedures};
use tt_store::Store;
use tt_text::{NoMemory, Text};
use tt_value::Value;

/// What an interpreter keeps.
#[derive(Debug, Drop)]
pub struct Kept {
    /// The variables, levels and watches.
    pub(crate) store: Store,
    /// The procedures, in the order of first definition.
    pub(crate) procedures: Procedures,
}

const MAIN: u32 = 1;

impl Kept {
    /// What the thread of this number keeps at its start.
    ///
    /// `NoMemory` if memory is refused.
    pub fn new(alloc: Global, me: u32, setup: &Setup) -> Result<Self, NoMemory>
        ensures begins { IfOk result (beginning.BeginsThread setup.now me) }
    {
        let mut store = Store::new(alloc)?;
        let arguments = globals(alloc, me, setup)?;
        store.set_variables(arguments.as_slice())?;
        Ok(Kept {
            store,
            procedures: Procedures::new(alloc),
        })
    }
}

fn globals(alloc: Global, me: u32, setup: &Setup) -> Result<Vec<Argument>, NoMemory>
    ensures { IfOk result (λ arguments. arguments.items ≡ beginning.globals me setup.now) }
{
    let mut arguments = Vec::new(alloc);
    if me != MAIN {
        return Ok(arguments);
    }
    let list = join_list(alloc, setup.arguments.as_slice())?;
    let count = count_text(alloc, setup.arguments.as_slice())?;
    arguments.push(argument(alloc, b"argv0", setup.name.copy()?)?)?;
    arguments.push(argument(alloc, b"argv", list)?)?;
    arguments.push(argument(alloc, b"argc", count)?)?;
    Ok(arguments)
}

fn argument(alloc: Global, name: &[u8], value: Text) -> Result<Argument, NoMemory>
    ensures { IfOk result (λ argument. argument ≡ beginning.argument name.now value) }
{
    Ok(Argument {
        name: Text::from_bytes(alloc, name)?,
        value: Value::from_text(value),
    })
}

fn count_text(alloc: Global, arguments: &[Text]) -> Result<Text, NoMemory>
    ensures { IfOk result (λ text. text ≡ beginning.count_of arguments.now) }
{
    let count = i64::try_from(arguments.len()).unwrap_or(i64::MAX);
    whole_text(alloc, count)
}
