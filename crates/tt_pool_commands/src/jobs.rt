//! Commands on the jobs of a pool.
ghost use Rattle.std.specs.Prelude.{◌≡◌, IfOk};
ghost use Rattle.tt_pool_commands.specs.Pools as pools;
ghost use Rattle.tt_command_tables.specs.Usages.{wrong_number};
ghost use Rattle.tt_command_tables.specs.declared.call.Call.TheVariants.{Bad};
ghost use Rattle.tt_lists.specs.Messages.{list_message};

use std::alloc::Global;
use tt_calls::PoolCall;
use tt_command_tables::{
    Call, Flag, Goal, Then, asks_pool, bad_option, first_unknown, front, has, wrong_number,
};
use tt_lists::{ListFault, Split, split};
use tt_text::{NoMemory, Text};

const POST: [Flag; 2] = [Flag::Detached, Flag::NoWait];

pub(crate) fn post(alloc: Global, usage: &[u8], words: &[Text]) -> Result<Call, NoMemory>
    ensures { IfOk result (λ call. call ≡ pools.post (wrong_number usage.now) words.now) }
{
    if let Some(word) = first_unknown(&POST, 2, words) {
        return bad_option(alloc, word.as_bytes());
    }
    let (options, words) = words.split_at(front(&POST, 2, words));
    post_words(alloc, usage, options, words)
}

fn post_words(
    alloc: Global,
    usage: &[u8],
    options: &[Text],
    words: &[Text],
) -> Result<Call, NoMemory>
    ensures { IfOk result (λ call. call ≡ pools.post_words (wrong_number usage.now) options.now words.now) }
{
    match words {
        [id, script] => {
            let call = PoolCall::Post {
                pool: id.copy()?,
                script: script.copy()?,
                detached: has(Flag::Detached, options),
            };
            asks_pool(alloc, call, Then::Value)
        }
        _ => wrong_number(alloc, usage),
    }
}

pub(crate) fn wait(alloc: Global, usage: &[u8], words: &[Text]) -> Result<Call, NoMemory>
    ensures { IfOk result (λ call. call ≡ pools.wait (wrong_number usage.now) words.now) }
{
    match words {
        [id, jobs] => waits(alloc, id, jobs.as_bytes(), None),
        [id, jobs, variable] => {
            let variable = Some(variable.copy()?);
            waits(alloc, id, jobs.as_bytes(), variable)
        }
        _ => wrong_number(alloc, usage),
    }
}

fn waits(alloc: Global, id: &Text, jobs: &[u8], variable: Option<Text>) -> Result<Call, NoMemory>
    ensures { IfOk result (λ call. call ≡ pools.waits id.now jobs.now variable) }
{
    match split(alloc, jobs)? {
        Split::Items(jobs) => {
            let pool = id.copy()?;
            let goal = Goal::Pool { store: variable };
            asks_pool(alloc, PoolCall::Look { pool, jobs }, Then::Serve(goal))
        }
        Split::Bad(fault) => no_list(alloc, &fault),
    }
}

pub(crate) fn cancel(alloc: Global, usage: &[u8], words: &[Text]) -> Result<Call, NoMemory>
    ensures { IfOk result (λ call. call ≡ pools.cancel (wrong_number usage.now) words.now) }
{
    match words {
        [id, jobs] => cancels(alloc, id, jobs.as_bytes(), Then::Value),
        [id, jobs, variable] => {
            let then = Then::Store(variable.copy()?);
            cancels(alloc, id, jobs.as_bytes(), then)
        }
        _ => wrong_number(alloc, usage),
    }
}

fn cancels(alloc: Global, id: &Text, jobs: &[u8], then: Then) -> Result<Call, NoMemory>
    ensures { IfOk result (λ call. call ≡ pools.cancels id.now jobs.now then) }
{
    match split(alloc, jobs)? {
        Split::Items(jobs) => {
            let pool = id.copy()?;
            asks_pool(alloc, PoolCall::Cancel { pool, jobs }, then)
        }
        Split::Bad(fault) => no_list(alloc, &fault),
    }
}

// That a text is no list.
fn no_list(alloc: Global, fault: &ListFault) -> Result<Call, NoMemory>
    ensures { IfOk result (λ call. call ≡ Bad (list_message fault.now)) }
{
    let message = fault.message(alloc)?;
    Ok(Call::Bad(message))
}

pub(crate) fn get(alloc: Global, usage: &[u8], words: &[Text]) -> Result<Call, NoMemory>
    ensures { IfOk result (λ call. call ≡ pools.get (wrong_number usage.now) words.now) }
{
    match words {
        [id, job] => {
            let pool = id.copy()?;
            let job = job.copy()?;
            asks_pool(alloc, PoolCall::Get { pool, job }, Then::Value)
        }
        _ => wrong_number(alloc, usage),
    }
}
