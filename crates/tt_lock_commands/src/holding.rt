//! thread::eval.
ghost use Rattle.std.specs.Prelude.{◌≡◌, IfOk};
ghost use Rattle.std.specs.Option.{option_copied};
ghost use Rattle.tt_lock_commands.specs.Locks as table;
ghost use Rattle.tt_lock_commands.specs.Locks.{eval_alone};
ghost use Rattle.tt_command_tables.specs.Usages.{wrong_number};

use crate::asking::asks_mutex;
use std::alloc::Global;
use tt_calls::LockCall;
use tt_command_tables::{Call, Then, asks_lock, bad_option, is_meant, wrong_number};
use tt_list_commands::concat;
use tt_text::{NoMemory, Text};

fn is_lock(word: &[u8]) -> bool
    ensures { result ≡ table.is_lock word.now }
{
    word == b"-lock".as_slice()
}

#[tactic(auto, unfolding(crate::specs::Locks::eval))]
pub(crate) fn eval(alloc: Global, usage: &[u8], words: &[Text]) -> Result<Call, NoMemory>
    ensures { IfOk result (λ call. call ≡ table.eval (wrong_number usage.now) words.now) }
{
    let mut id = None;
    let mut rest = words;
    while let [word, next, later @ ..] = rest {
        if !is_lock(word.as_bytes()) {
            return eval_args(alloc, id, word.as_bytes(), rest);
        }
        id = Some(next);
        rest = later;
    }
    eval_alone(alloc, usage, id, rest)
}

// The words from this one on, which isn't -lock, and has others after it.
fn eval_args(
    alloc: Global,
    id: Option<&Text>,
    word: &[u8],
    words: &[Text],
) -> Result<Call, NoMemory>
    ensures { IfOk result (λ call. call ≡ table.eval_args (option_copied id.entry) word.now words.now) }
{
    if is_meant(word) {
        bad_option(alloc, word)
    } else {
        holds(alloc, id, words)
    }
}

// At most one word.
fn eval_alone(
    alloc: Global,
    usage: &[u8],
    id: Option<&Text>,
    words: &[Text],
) -> Result<Call, NoMemory>
    ensures { IfOk result (λ call. call ≡ eval_alone (option_copied id.entry) (wrong_number usage.now) words.now) }
{
    match words {
        [] => wrong_number(alloc, usage),
        [_, ..] => holds(alloc, id, words),
    }
}

fn holds(alloc: Global, id: Option<&Text>, args: &[Text]) -> Result<Call, NoMemory>
    ensures { IfOk result (λ call. call ≡ table.holds (option_copied id.entry) args.now) }
{
    let script = concat(alloc, args)?;
    match id {
        Some(id) => {
            let call = LockCall::Lock { id: id.copy()? };
            asks_mutex(alloc, id.as_bytes(), call, Then::Held(script))
        }
        None => {
            let id = Text::new(alloc);
            asks_lock(alloc, LockCall::Lock { id }, Then::Held(script))
        }
    }
}
