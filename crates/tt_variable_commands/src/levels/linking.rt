//! Links to variables (global(n), upvar(n)).
ghost use Rattle.std.specs.Prelude.{◌≡◌, ◌≤◌, ◌==◌, ◌||◌, IfOk, OnOk, is_some};
ghost use Rattle.tt_variable_commands.specs.Linking as linking;
ghost use Rattle.tt_script.specs.Names.{global_of};

use crate::levels::counting::{frame_of, is_global};
use crate::levels::messages::{bad_level, bad_name, in_use, to_itself};
use crate::levels::words::{is_odd, parted};
use crate::vocabulary::is_element;
use std::alloc::Global;
use tt_calls::Outcome;
use tt_script::{global_name, plain_name};
use tt_store::{Store, outcome_by};
use tt_text::{NoMemory, Text};
use tt_vars::Linked;

/// Links names of the current frame to the global variables of the same names.
pub(crate) fn global(alloc: Global, store: &mut Store, names: &[Text]) -> Result<Outcome, NoMemory>
    ensures { IfOk result (λ outcome.
        linking.GlobalBy (store.old.levels.current == 0) names.now store.old outcome store.new) }
{
    if is_global(store) {
        return Ok(Outcome::fine(alloc, Text::new(alloc)));
    }
    let message = link_names(alloc, store, names)?;
    let outcome = outcome_by(alloc, message)?;
    Ok(outcome)
}

fn link_names(alloc: Global, store: &mut Store, names: &[Text]) -> Result<Option<Text>, NoMemory>
    ensures { IfOk result (λ message. linking.Each linking.LinksName names.now store.old message store.new) }
{
    for name in names {
        if let Some(message) = link_name(alloc, store, name)? {
            return Ok(Some(message));
        }
    }
    Ok(None)
}

fn link_name(alloc: Global, store: &mut Store, word: &Text) -> Result<Option<Text>, NoMemory>
    ensures { IfOk result (λ message. linking.LinksName word.now store.old message store.new) }
{
    let local = Text::from_bytes(alloc, plain_name(word.as_bytes()))?;
    let bad = is_element(&local);
    let message = link_one(alloc, store, bad, word, &local, 0, word)?;
    Ok(message)
}

/// Links names of the current frame to what other names name in the frame of a level.
pub(crate) fn upvar(
    alloc: Global,
    store: &mut Store,
    usage: &[u8],
    words: &[Text],
) -> Result<Outcome, NoMemory>
    ensures { IfOk result (λ outcome. linking.upvar usage.now words.now store.old outcome store.new) }
{
    if words.len() < 2 {
        return Outcome::wrong_number(alloc, usage);
    }
    let (level, names) = parted(is_odd(words), words);
    let outcome = link_from(alloc, store, level, names)?;
    Ok(outcome)
}

fn link_from(
    alloc: Global,
    store: &mut Store,
    level: &[u8],
    names: &[Text],
) -> Result<Outcome, NoMemory>
    ensures { IfOk result (λ outcome. linking.LinksFrom (level.now, names.now) store.old outcome store.new) }
{
    match frame_of(store, level) {
        Some(frame) => {
            let message = link_pairs(alloc, store, frame, names)?;
            let outcome = outcome_by(alloc, message)?;
            Ok(outcome)
        }
        None => bad_level(alloc, level),
    }
}

fn link_pairs(
    alloc: Global,
    store: &mut Store,
    frame: u64,
    names: &[Text],
) -> Result<Option<Text>, NoMemory>
    requires lower { frame ≤ store.old.levels.current }
    ensures { IfOk result (λ message.
        linking.Each (linking.LinksPair frame) (linking.pairs_of names.now) store.old message store.new) }
{
    let mut left = names;
    while let [other, local, later @ ..] = left {
        if let Some(message) = link_pair(alloc, store, frame, other, local)? {
            return Ok(Some(message));
        }
        left = later;
    }
    Ok(None)
}

fn link_pair(
    alloc: Global,
    store: &mut Store,
    frame: u64,
    other: &Text,
    local: &Text,
) -> Result<Option<Text>, NoMemory>
    requires lower { frame ≤ store.old.levels.current }
    ensures linked { IfOk result (λ message.
        linking.LinksPair frame (other.now, local.now) store.old message store.new) }
    ensures here { OnOk result (store.new.levels.current ≡ store.old.levels.current) }
{
    let bad = is_element(local) || is_global_name(local);
    let message = link_one(alloc, store, bad, local, local, frame, other)?;
    Ok(message)
}

// The message, if there is no link.
fn link_one(
    alloc: Global,
    store: &mut Store,
    bad: bool,
    word: &Text,
    local: &Text,
    frame: u64,
    other: &Text,
) -> Result<Option<Text>, NoMemory>
    requires lower { frame ≤ store.old.levels.current }
    ensures linked { IfOk result (λ message.
        linking.LinksOne bad word.now local.now frame other.now store.old message store.new) }
    ensures here { OnOk result (store.new.levels.current ≡ store.old.levels.current) }
{
    if bad {
        return Ok(Some(bad_name(alloc, word.as_bytes())?));
    }
    let linked = store.link(local, frame, other)?;
    let message = message_of(alloc, word, linked)?;
    Ok(message)
}

fn message_of(alloc: Global, word: &Text, linked: Linked) -> Result<Option<Text>, NoMemory>
    ensures { IfOk result (λ message. message ≡ linking.message_of word.now linked) }
{
    match linked {
        Linked::Yes => Ok(None),
        Linked::Exists => Ok(Some(in_use(alloc, word.as_bytes())?)),
        Linked::Itself => Ok(Some(to_itself(alloc)?)),
    }
}

fn is_global_name(name: &Text) -> bool
    ensures { result ≡ is_some (global_of name.now) }
{
    global_name(name.as_bytes()).is_some()
}
