//! What a whole command comes to.
ghost use Rattle.std.specs.Prelude.{◌≡◌, IfOk};
ghost use Rattle.tt_dictionaries.specs.Commands as table;

use std::alloc::Global;
use tt_dict::{DictCall, read_dict};
use tt_script::plain_name;
use tt_store::{Answer, Store};
use tt_text::{NoMemory, Text};
use tt_value::Value;

/// Runs a whole command, its name first: dict(n), and it has ended; `Other` if it has another name, or is `dict for`,
/// and then nothing has changed.
///
/// `NoMemory` if memory is refused.
pub fn run(alloc: Global, store: &mut Store, words: &[Value]) -> Result<Answer, NoMemory>
    ensures runs { IfOk result (λ answer. table.Runs words.now store.old answer store.new) }
{
    match words {
        [word, words @ ..] => {
            let word = word.to_text(alloc)?;
            run_if(alloc, store, is_dict(&word) && !loops(alloc, words)?, words)
        }
        [] => Ok(Answer::Other),
    }
}

fn run_if(
    alloc: Global,
    store: &mut Store,
    named: bool,
    words: &[Value],
) -> Result<Answer, NoMemory>
    ensures { IfOk result (λ answer. table.RunsIf named words.now store.old answer store.new) }
{
    if !named {
        return Ok(Answer::Other);
    }
    let call = read_dict(alloc, words)?;
    let answer = run_call(alloc, store, call)?;
    Ok(answer)
}

fn run_call(alloc: Global, store: &mut Store, call: DictCall) -> Result<Answer, NoMemory>
    ensures { IfOk result (λ answer. table.RunsCall call store.old answer store.new) }
{
    match call {
        DictCall::Done(outcome) => Ok(Answer::Outcome(outcome)),
        DictCall::Variable { name, change } => {
            let outcome = store.change(&name, b"", &change)?;
            Ok(Answer::Outcome(outcome))
        }
        DictCall::Loop(_) => Ok(Answer::Other),
    }
}

fn is_dict(word: &Text) -> bool
    ensures { result ≡ table.is_dict word.now }
{
    plain_name(word.as_bytes()) == b"dict".as_slice()
}

fn loops(alloc: Global, words: &[Value]) -> Result<bool, NoMemory>
    ensures { IfOk result (λ loops. loops ≡ table.loops words.now) }
{
    match words {
        [word, ..] => Ok(word.to_text(alloc)?.as_bytes() == b"for".as_slice()),
        [] => Ok(false),
    }
}
