//! Values that are read and changed as dictionaries (dict(n)).
ghost use Rattle.std.specs.Prelude.{◌≡◌, Err, IfErr, IfOk, OnErr, OnOk, Ok};
ghost use Rattle.std.specs.Arc.{arc_value};
ghost use Rattle.tt_pairs.specs.Pairs.{with_pair, without_key};
ghost use Rattle.tt_pairs.specs.Reading.{reading_of};
ghost use Rattle.tt_value.specs.Dictionaries.{after};
ghost use Rattle.tt_value.specs.inside.KeptText.{text_of};
ghost use Rattle.tt_value.specs.inside.Paired.{alone};

use crate::kept::{Kept, text_of};
use crate::pairing::Pairing;
use crate::pairs::Pairs;
use std::alloc::Global;
use std::sync::Arc;
use tt_pairs::read;
use tt_text::{NoMemory, Text};

/// The pairs, which the value keeps from then on. A number stays one.
pub(crate) fn pairs_of(alloc: Global, kept: &mut Kept) -> Result<Result<Pairs, Text>, NoMemory>
    ensures reading { IfOk result (λ reading. reading ≡ reading_of (text_of kept.old)) }
    ensures same { text_of kept.new ≡ text_of kept.old }
{
    match pairing_of(alloc, kept)? {
        Ok(shared) => {
            let pairs = shared_pairs(&shared)?;
            keep_pairs(kept, shared);
            Ok(Ok(pairs))
        }
        Err(message) => Ok(Err(message)),
    }
}

/// The same, which only the answer keeps if the value is no dictionary yet.
pub(crate) fn own_pairs(alloc: Global, kept: &Kept) -> Result<Result<Pairs, Text>, NoMemory>
    ensures reading { IfOk result (λ reading. reading ≡ reading_of (text_of kept.now)) }
{
    match pairing_of(alloc, kept)? {
        Ok(shared) => {
            let pairs = shared_pairs(&shared)?;
            Ok(Ok(pairs))
        }
        Err(message) => Ok(Err(message)),
    }
}

fn shared_pairs(shared: &Arc<Pairing>) -> Result<Pairs, NoMemory>
    ensures { IfOk result (λ pairs. reading_of (arc_value shared.now).text ≡ Ok pairs) }
{
    shared.is_read();
    let shared = Arc::try_clone(shared)?;
    Ok(Pairs::of(shared))
}

fn keep_pairs(kept: &mut Kept, shared: Arc<Pairing>)
    requires { (arc_value shared).text ≡ text_of kept.old }
    ensures same { text_of kept.new ≡ text_of kept.old }
{
    match kept {
        Kept::Text(_) | Kept::List(_) => *kept = Kept::Pairs(shared),
        Kept::Number(_) | Kept::Pairs(_) => {}
    }
}

// The pairs with the text, which are shared if they are kept.
fn pairing_of(alloc: Global, kept: &Kept) -> Result<Result<Arc<Pairing>, Text>, NoMemory>
    ensures text { IfOk result (λ read. IfOk read (λ shared. (arc_value shared).text ≡ text_of kept.now)) }
    ensures fault { IfOk result (λ read. IfErr read (λ message. reading_of (text_of kept.now) ≡ Err message)) }
{
    if let Kept::Pairs(shared) = kept {
        return Ok(Ok(Arc::try_clone(shared)?));
    }
    let text = text_of(alloc, kept)?;
    match read(alloc, text.as_bytes())? {
        Ok(pairs) => Ok(Ok(Arc::new(alloc, Pairing::from_text(text, pairs))?)),
        Err(message) => Ok(Err(message)),
    }
}

/// The text becomes the canonical one of the pairs; or it says why there are none.
pub(crate) fn pairs_alone(alloc: Global, kept: &mut Kept) -> Result<Result<(), Text>, NoMemory>
    ensures alone { IfOk result (λ alone. OnOk alone
        (after (λ pairs. pairs) (reading_of (text_of kept.old)) ≡ Ok (text_of kept.new))) }
    ensures fault { IfOk result (λ alone. IfErr alone (λ message. reading_of (text_of kept.old) ≡ Err message)) }
    ensures stays { IfOk result (λ alone. OnErr alone (text_of kept.new ≡ text_of kept.old)) }
{
    match pairing_of(alloc, kept)? {
        Ok(shared) => {
            shared.is_read();
            let own = shared.copy_alone()?;
            *kept = Kept::Pairs(Arc::new(alloc, own)?);
            Ok(Ok(()))
        }
        Err(message) => Ok(Err(message)),
    }
}

/// Gives a key this value, in place if nobody else has the dictionary; or says why the value is none.
pub(crate) fn put_pair(
    alloc: Global,
    kept: &mut Kept,
    key: Text,
    value: Text,
) -> Result<Result<(), Text>, NoMemory>
    ensures put { IfOk result (λ put. OnOk put
        (after (λ pairs. with_pair pairs key value) (reading_of (text_of kept.old)) ≡ Ok (text_of kept.new))) }
    ensures fault { IfOk result (λ put. IfErr put (λ message. reading_of (text_of kept.old) ≡ Err message)) }
    ensures stays { IfOk result (λ put. OnErr put (text_of kept.new ≡ text_of kept.old)) }
{
    if let Kept::Pairs(shared) = kept {
        shared.is_read();
        put_shared(alloc, shared, key, value)?;
        return Ok(Ok(()));
    }
    let text = text_of(alloc, kept)?;
    match read(alloc, text.as_bytes())? {
        Ok(mut pairs) => {
            pairs.put(key, value)?;
            *kept = Kept::Pairs(Arc::new(alloc, Pairing::from_pairs(pairs))?);
            Ok(Ok(()))
        }
        Err(message) => Ok(Err(message)),
    }
}

fn put_shared(
    alloc: Global,
    shared: &mut Arc<Pairing>,
    key: Text,
    value: Text,
) -> Result<(), NoMemory>
    ensures put { OnOk result (arc_value shared.new ≡ alone (with_pair (arc_value shared.old).pairs key value)) }
{
    match Arc::get_mut(shared) {
        Some(own) => own.put(key, value),
        None => {
            let mut own = shared.copy_alone()?;
            own.put(key, value)?;
            *shared = Arc::new(alloc, own)?;
            Ok(())
        }
    }
}

/// Takes out the pair of a key, in place if nobody else has the dictionary; or says why the value is none.
pub(crate) fn remove_pair(
    alloc: Global,
    kept: &mut Kept,
    key: &Text,
) -> Result<Result<(), Text>, NoMemory>
    ensures removed { IfOk result (λ removed. OnOk removed
        (after (λ pairs. without_key pairs key.now) (reading_of (text_of kept.old)) ≡ Ok (text_of kept.new))) }
    ensures fault { IfOk result (λ removed. IfErr removed (λ message.
        reading_of (text_of kept.old) ≡ Err message)) }
    ensures stays { IfOk result (λ removed. OnErr removed (text_of kept.new ≡ text_of kept.old)) }
{
    if let Kept::Pairs(shared) = kept {
        shared.is_read();
        remove_shared(alloc, shared, key)?;
        return Ok(Ok(()));
    }
    let text = text_of(alloc, kept)?;
    match read(alloc, text.as_bytes())? {
        Ok(mut pairs) => {
            pairs.remove(key);
            *kept = Kept::Pairs(Arc::new(alloc, Pairing::from_pairs(pairs))?);
            Ok(Ok(()))
        }
        Err(message) => Ok(Err(message)),
    }
}

fn remove_shared(alloc: Global, shared: &mut Arc<Pairing>, key: &Text) -> Result<(), NoMemory>
    ensures removed { OnOk result (arc_value shared.new ≡ alone (without_key (arc_value shared.old).pairs key.now)) }
{
    match Arc::get_mut(shared) {
        Some(own) => own.remove(key),
        None => {
            let mut own = shared.copy_alone()?;
            own.remove(key);
            *shared = Arc::new(alloc, own)?;
        }
    }
    Ok(())
}
