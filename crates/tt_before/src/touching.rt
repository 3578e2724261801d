//! What a step touches of shared arrays.
ghost use Rattle.std.specs.Prelude.{◌≡◌, IfOk};
ghost use Rattle.tt_before.specs.Steps.{is_done, step};
ghost use Rattle.tt_before.specs.Touching.{has_value, keys_in, keys_of, moved_keys, touched, touched_by};
ghost use Rattle.tt_before.specs.Touching.{touched_by_call, touched_in, touched_whole, writes, writes_element};
ghost use Rattle.tt_before.specs.Touching.{writes_list};

use crate::Touched;
use std::alloc::Global;
use tt_calls::{Reply, Request, TsvCall};
use tt_text::{NoMemory, Text, Texts};

/// Whether what was asked was done: it was neither refused nor cancelled.
pub(crate) fn is_done(reply: &Reply) -> bool
    ensures { result ≡ is_done reply.now }
{
    match reply {
        Reply::Refused(_) | Reply::Cancelled(_) => false,
        _ => true,
    }
}

/// What a step touches.
///
/// `NoMemory` if memory is refused.
pub(crate) fn touched(
    alloc: Global,
    request: &Request,
    reply: &Reply,
) -> Result<Option<Touched>, NoMemory>
    ensures { IfOk result (λ one. one ≡ touched (step 0 request.now reply.now 0)) }
{
    if !is_done(reply) {
        return Ok(None);
    }
    match request {
        Request::Tsv(call) => by_call(alloc, call.get()),
        _ => Ok(None),
    }
}

fn by_call(alloc: Global, call: &TsvCall) -> Result<Option<Touched>, NoMemory>
    ensures { IfOk result (λ one. one ≡ touched_by_call call.now) }
{
    match call {
        TsvCall::Run { words } => by_words(alloc, words.as_slice()),
        _ => Ok(None),
    }
}

fn by_words(alloc: Global, words: &[Text]) -> Result<Option<Touched>, NoMemory>
    ensures { IfOk result (λ one. one ≡ touched_in words.now) }
{
    let [name, words @ ..] = words else {
        return Ok(None);
    };
    let name = name.as_bytes();
    if name == b"tsv::array".as_slice() {
        return whole(words);
    }
    if name == b"tsv::names".as_slice() {
        return Ok(None);
    }
    by_name(alloc, name, words)
}

/// What `tsv::array` touches.
fn whole(words: &[Text]) -> Result<Option<Touched>, NoMemory>
    ensures { IfOk result (λ one. one ≡ touched_whole words.now) }
{
    let [name, array, ..] = words else {
        return Ok(None);
    };
    let name = name.as_bytes();
    Ok(Some(Touched {
        array: array.copy()?,
        keys: None,
        writes: name == b"set".as_slice() || name == b"reset".as_slice(),
    }))
}

fn by_name(alloc: Global, name: &[u8], words: &[Text]) -> Result<Option<Touched>, NoMemory>
    ensures { IfOk result (λ one. one ≡ touched_by name.now words.now) }
{
    let [array, words @ ..] = words else {
        return Ok(None);
    };
    Ok(Some(Touched {
        array: array.copy()?,
        keys: keys_of(alloc, name, words)?,
        writes: writes(name, words),
    }))
}

fn keys_of(alloc: Global, name: &[u8], words: &[Text]) -> Result<Option<Texts>, NoMemory>
    ensures { IfOk result (λ keys. keys ≡ keys_of name.now words.now) }
{
    if name == b"tsv::move".as_slice() {
        return moved_keys(alloc, words);
    }
    keys_in(alloc, words)
}

fn moved_keys(alloc: Global, words: &[Text]) -> Result<Option<Texts>, NoMemory>
    ensures { IfOk result (λ keys. keys ≡ moved_keys words.now) }
{
    let [key, new, ..] = words else {
        return keys_in(alloc, words);
    };
    let mut keys = Texts::new(alloc);
    keys.push(key.copy()?)?;
    keys.push(new.copy()?)?;
    Ok(Some(keys))
}

fn keys_in(alloc: Global, words: &[Text]) -> Result<Option<Texts>, NoMemory>
    ensures { IfOk result (λ keys. keys ≡ keys_in words.now) }
{
    let [key, ..] = words else {
        return Ok(None);
    };
    let mut keys = Texts::new(alloc);
    keys.push(key.copy()?)?;
    Ok(Some(keys))
}

fn writes(name: &[u8], words: &[Text]) -> bool
    ensures { result ≡ writes name.now words.now }
{
    if name == b"tsv::set".as_slice() {
        return words.len() >= 2;
    }
    writes_element(name) || writes_list(name)
}

fn writes_element(name: &[u8]) -> bool
    ensures { result ≡ writes_element name.now }
{
    name == b"tsv::unset".as_slice()
        || name == b"tsv::pop".as_slice()
        || name == b"tsv::move".as_slice()
        || name == b"tsv::incr".as_slice()
        || name == b"tsv::append".as_slice()
}

fn writes_list(name: &[u8]) -> bool
    ensures { result ≡ writes_list name.now }
{
    name == b"tsv::lappend".as_slice()
        || name == b"tsv::linsert".as_slice()
        || name == b"tsv::lreplace".as_slice()
        || name == b"tsv::lpush".as_slice()
        || name == b"tsv::lpop".as_slice()
}
