//! Commands on a pool as a whole.
ghost use Rattle.std.specs.Prelude.{◌≡◌, IfOk};
ghost use Rattle.tt_calls.specs.declared.pool_call.PoolCall.TheVariants as pool;
ghost use Rattle.tt_pool_commands.specs.Pools as pools;
ghost use Rattle.tt_command_tables.specs.Usages.{wrong_number};

use std::alloc::Global;
use tt_calls::PoolCall;
use tt_command_tables::{Call, Then, asks_pool, wrong_number};
use tt_text::{NoMemory, Text};

pub(crate) fn names(alloc: Global, usage: &[u8], words: &[Text]) -> Result<Call, NoMemory>
    ensures { IfOk result (λ call. call ≡ pools.names (wrong_number usage.now) words.now) }
{
    match words {
        [] => asks_pool(alloc, PoolCall::Names, Then::Value),
        _ => wrong_number(alloc, usage),
    }
}

pub(crate) fn preserve(alloc: Global, usage: &[u8], words: &[Text]) -> Result<Call, NoMemory>
    ensures { IfOk result (λ call. call ≡ pools.of_pool pool.Preserve (wrong_number usage.now) words.now) }
{
    match words {
        [id] => {
            let pool = id.copy()?;
            asks_pool(alloc, PoolCall::Preserve { pool }, Then::Value)
        }
        _ => wrong_number(alloc, usage),
    }
}

pub(crate) fn release(alloc: Global, usage: &[u8], words: &[Text]) -> Result<Call, NoMemory>
    ensures { IfOk result (λ call. call ≡ pools.of_pool pool.Release (wrong_number usage.now) words.now) }
{
    match words {
        [id] => {
            let pool = id.copy()?;
            asks_pool(alloc, PoolCall::Release { pool }, Then::Value)
        }
        _ => wrong_number(alloc, usage),
    }
}

/// `tpool::suspend`, or `tpool::resume` if it isn't on.
pub(crate) fn suspend(
    alloc: Global,
    usage: &[u8],
    words: &[Text],
    on: bool,
) -> Result<Call, NoMemory>
    ensures { IfOk result (λ call. call ≡ pools.of_pool (pools.suspension on) (wrong_number usage.now) words.now) }
{
    match words {
        [id] => {
            let pool = id.copy()?;
            asks_pool(alloc, PoolCall::Suspend { pool, on }, Then::Value)
        }
        _ => wrong_number(alloc, usage),
    }
}
