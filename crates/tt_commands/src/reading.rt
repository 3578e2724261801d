ghost use Rattle.std.specs.Prelude.{◌≡◌, IfOk};
ghost use Rattle.tt_commands.specs.Calls.{call_of, channel_call, lock_call, pool_call, shared_call, thread_call};

use std::alloc::Global;
use tt_channel_commands::ChannelCommand;
use tt_command_tables::Call;
use tt_lock_commands::LockCommand;
use tt_pool_commands::PoolCommand;
use tt_script::plain_name;
use tt_shared_commands::SharedCommand;
use tt_text::{NoMemory, Text};
use tt_thread_commands::ThreadCommand;

/// What the words of a command mean in thread `me`, its name first; one leading `::` of the name is dropped.
///
/// `Other` comes exactly if there is no first word, or it is no command of the tables. Errors come in this order: an
/// option or a subcommand that isn't known, a wrong number of words, what the words say.
///
/// `NoMemory` if memory is refused.
pub fn read_call(alloc: Global, words: &[Text], me: u32) -> Result<Call, NoMemory>
    ensures call { IfOk result (λ call. call ≡ call_of words.now me) }
{
    match words {
        [name, words @ ..] => thread_call(alloc, plain_name(name.as_bytes()), words, me),
        [] => Ok(Call::Other),
    }
}

fn thread_call(alloc: Global, name: &[u8], words: &[Text], me: u32) -> Result<Call, NoMemory>
    ensures { IfOk result (λ call. call ≡ thread_call me name.now words.now) }
{
    match ThreadCommand::named(name) {
        Some(command) => command.call(alloc, words, me),
        None => channel_call(alloc, name, words, me),
    }
}

fn channel_call(alloc: Global, name: &[u8], words: &[Text], me: u32) -> Result<Call, NoMemory>
    ensures { IfOk result (λ call. call ≡ channel_call me name.now words.now) }
{
    match ChannelCommand::named(name) {
        Some(command) => command.call(alloc, words, me),
        None => shared_call(alloc, name, words, me),
    }
}

fn shared_call(alloc: Global, name: &[u8], words: &[Text], me: u32) -> Result<Call, NoMemory>
    ensures { IfOk result (λ call. call ≡ shared_call me name.now words.now) }
{
    match SharedCommand::named(name) {
        Some(command) => command.call(alloc, name, words),
        None => lock_call(alloc, name, words, me),
    }
}

fn lock_call(alloc: Global, name: &[u8], words: &[Text], me: u32) -> Result<Call, NoMemory>
    ensures { IfOk result (λ call. call ≡ lock_call me name.now words.now) }
{
    match LockCommand::named(name) {
        Some(command) => command.call(alloc, words, me),
        None => pool_call(alloc, name, words, me),
    }
}

fn pool_call(alloc: Global, name: &[u8], words: &[Text], me: u32) -> Result<Call, NoMemory>
    ensures { IfOk result (λ call. call ≡ pool_call me name.now words.now) }
{
    match PoolCommand::named(name) {
        Some(command) => command.call(alloc, words, me),
        None => Ok(Call::Other),
    }
}
