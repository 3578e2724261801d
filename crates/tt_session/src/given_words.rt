ghost use Rattle.std.specs.Prelude.{◌≡◌, IfOk, IfErr, MatchResult, drop};
ghost use Rattle.std.specs.Vec.Iter.{into_iter_items};
ghost use Rattle.tt_session.specs.NoWords.{IsNoWords};

use crate::status::Refusal;
use std::alloc::{AllocError, Global};
use std::env::Args;
use std::io;
use std::io::ErrorKind;

/// The words after the program's name, of those that the system gives.
///
/// `Usage` if one of them is no UTF-8, and `NoMemory` if memory for them is refused.
pub fn program_words(alloc: Global, all: io::Result<Args>) -> Result<Vec<String>, Refusal>
    ensures read { IfOk all (λ all. MatchResult result (λ words. words.items ≡ drop 1 (into_iter_items all))
        (λ why. why ≡ Refusal.NoMemory)) }
    ensures unread { IfErr all (λ error. MatchResult result (λ _. ⊥) (IsNoWords error)) }
{
    match all {
        Ok(all) => match after_name(alloc, all) {
            Ok(words) => Ok(words),
            Err(_) => Err(Refusal::NoMemory),
        },
        Err(error) => Err(without_words(&error)),
    }
}

/// The words after the first.
fn after_name(alloc: Global, mut all: Args) -> Result<Vec<String>, AllocError>
    ensures { IfOk result (λ words. words.items ≡ drop 1 (into_iter_items all)) }
{
    let mut words = Vec::new(alloc);
    let _name = all.next();
    for word in all {
        words.push(word)?;
    }
    Ok(words)
}

/// Why there are no words.
fn without_words(error: &io::Error) -> Refusal
    ensures { IsNoWords error.now result }
{
    match error.kind() {
        ErrorKind::OutOfMemory => Refusal::NoMemory,
        _ => Refusal::Usage,
    }
}
