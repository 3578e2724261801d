ghost use Rattle.std.specs.Prelude.{◌≡◌, IfOk};
ghost use Rattle.tt_lock_commands.specs.Locks as table;

use std::alloc::Global;
use tt_calls::LockCall;
use tt_command_tables::{Call, Then, asks_lock, bad};
use tt_text::NoMemory;

/// A call that concerns the mutex of this id, and what follows the reply; no mutex has the empty id.
pub(crate) fn asks_mutex(
    alloc: Global,
    id: &[u8],
    call: LockCall,
    then: Then,
) -> Result<Call, NoMemory>
    ensures { IfOk result (λ asked. asked ≡ table.on_mutex id.now call then) }
{
    match id {
        [] => bad(alloc, b"no such mutex \"\""),
        [_, ..] => asks_lock(alloc, call, then),
    }
}
