ghost use Rattle.std.specs.Prelude.{◌≡◌, ◌+◌, ◌<◌, ◌++◌, ◌∷◌, ◌≤◌, [], vec_len, vec_capacity, bytes_eq, length, IfOk, OnOk, OnErr, ◌↔◌, IsTrue};
ghost use Rattle.std.specs.Arc.{arc_value};
ghost use Rattle.std.specs.List.{list_all};
ghost use Rattle.tt_text.specs.Characters.{begins_character, characters};
ghost use Rattle.tt_text.specs.inside.TextBytes.{bytes_of};

use crate::NoMemory;
use crate::characters::{char_count, is_narrow};
use crate::few::{Few, ROOM};
use crate::many::Many;
use std::alloc::{AllocError, Global};
use std::marker::Model;
use std::sync::Arc;

/// How a text stores its bytes: a few in place, more behind a pointer that its copies share.
#[derive(Debug, Drop)]
enum Storage {
    Short(Few),
    Long(Arc<Many>),
}

/// A list of bytes, in no encoding, as Tcl(n) has them. Contracts see the list.
///
/// A text of up to 14 bytes takes no allocation, and a copy of any text takes none.
#[derive(Debug, Drop)]
pub struct Text {
    alloc: Global,
    storage: Storage,
}

impl Model for Text {
    ghost use Rattle.std.specs.Prelude.{ℕ, List};

    ghost Value = { List ℕ };

    ghost use Rattle.tt_text.specs.inside.TextBytes.{bytes_of};

    ghost view = { λ text. bytes_of text.storage };
}

impl Text {
    /// The empty text. It takes no memory.
    pub fn new(alloc: Global) -> Self
        ensures empty { result ≡ [] }
    {
        Text {
            alloc,
            storage: Storage::Short(Few::new()),
        }
    }

    /// A text of these bytes.
    ///
    /// `NoMemory` if the memory for them is refused.
    pub fn from_bytes(alloc: Global, bytes: &[u8]) -> Result<Self, NoMemory>
        ensures made { IfOk result (λ text. text ≡ bytes.now) }
    {
        let storage = if bytes.len() <= ROOM {
            in_place(bytes)
        } else {
            shared(alloc, Vec::from_slice(alloc, bytes)?)?
        };
        Ok(Text { alloc, storage })
    }

    /// A text of the bytes of a vector. More than 14 are not copied.
    ///
    /// `NoMemory` if the memory for it is refused.
    pub fn from_vec(alloc: Global, bytes: Vec<u8>) -> Result<Self, NoMemory>
        ensures made { IfOk result (λ text. text ≡ bytes.items) }
    {
        let storage = if bytes.len() <= ROOM {
            in_place(bytes.as_slice())
        } else {
            shared(alloc, bytes)?
        };
        Ok(Text { alloc, storage })
    }

    /// The bytes as a vector. They are copied if they are few, or if a copy of the text shares them.
    ///
    /// `NoMemory` if the memory for them is refused.
    pub fn into_vec(self) -> Result<Vec<u8>, NoMemory>
        ensures bytes { IfOk result (λ bytes. bytes.items ≡ self) }
    {
        let Text { alloc, storage } = self;
        match storage {
            Storage::Short(few) => Ok(Vec::from_slice(alloc, few.as_slice())?),
            Storage::Long(shared) => match Arc::try_unwrap(shared) {
                Ok(many) => Ok(many.into_vec()),
                Err(shared) => Ok(Vec::from_slice(alloc, shared.as_slice())?),
            },
        }
    }

    /// The bytes, from the first to the last.
    pub fn as_bytes(&self) -> &[u8]
        ensures bytes { result.now ≡ self.now }
    {
        match &self.storage {
            Storage::Short(few) => few.as_slice(),
            Storage::Long(shared) => shared.as_slice(),
        }
    }

    /// How many bytes there are.
    pub fn len(&self) -> usize
        ensures len { result ≡ length self.now }
    {
        self.as_bytes().len()
    }

    /// Whether there are none.
    pub fn is_empty(&self) -> bool
        ensures empty { IsTrue result ↔ (self.now ≡ []) }
    {
        self.as_bytes().is_empty()
    }

    /// Whether each byte begins a character, and then each character is one byte (string(n)). Constant time.
    pub fn is_narrow(&self) -> bool
        ensures narrow { result ≡ list_all begins_character self.now }
        ensures one_byte_each { IsTrue result → length (characters self.now) ≡ length self.now }
    {
        match &self.storage {
            Storage::Short(few) => is_narrow(few.as_slice()),
            Storage::Long(shared) => shared.is_narrow(),
        }
    }

    /// How many characters there are (string(n), string length), in constant time if each is one byte.
    pub fn char_count(&self) -> usize
        ensures count { result ≡ length (characters self.now) }
    {
        if self.is_narrow() {
            self.len()
        } else {
            char_count(self.as_bytes())
        }
    }

    /// Whether the other text has the same bytes. Two that are stored in place are compared as they are stored.
    pub(crate) fn is_same(&self, other: &Text) -> bool
        ensures same { result ≡ bytes_eq self.now other.now }
    {
        match (&self.storage, &other.storage) {
            (Storage::Short(few), Storage::Short(others)) => few.is_same(others),
            _ => self.as_bytes() == other.as_bytes(),
        }
    }

    /// Adds these bytes at the end.
    ///
    /// `NoMemory` if the memory for them is refused; then the text is as it was.
    pub fn push_bytes(&mut self, bytes: &[u8]) -> Result<(), NoMemory>
        ensures pushed { OnOk result (self.new ≡ self.old ++ bytes.now) }
        ensures unchanged { OnErr result (self.new ≡ self.old) }
    {
        push_stored(self.alloc, &mut self.storage, bytes)
    }

    /// Puts a copy at the end of a list that has room for it. The copy of a short text goes straight to its place.
    #[inline]
    pub(crate) fn push_copy(&self, items: &mut Vec<Text>) -> Result<(), NoMemory>
        requires room { vec_len items.old < vec_capacity items.old }
        ensures pushed { OnOk result (items.new.items ≡ items.old.items ++ self.now ∷ []) }
        ensures unchanged { OnErr result (items.new.items ≡ items.old.items) }
        ensures len { OnOk result (vec_len items.new ≡ vec_len items.old + 1) }
        ensures capacity { vec_capacity items.new ≡ vec_capacity items.old }
    {
        let alloc = self.alloc;
        match &self.storage {
            Storage::Short(few) => {
                push_few(alloc, few, items);
                Ok(())
            }
            Storage::Long(shared) => push_shared(alloc, shared, items),
        }
    }

    // It becomes the text of these few bytes.
    #[inline]
    fn set_few(&mut self, few: &Few)
        ensures set { self.new ≡ few.now }
    {
        match &mut self.storage {
            Storage::Short(own) => own.set(few),
            storage @ Storage::Long(_) => *storage = Storage::Short(few.copy()),
        }
    }

    /// A second text of the same bytes. It takes no allocation.
    ///
    /// `NoMemory` if there are too many copies.
    pub fn copy(&self) -> Result<Self, NoMemory>
        ensures copied { IfOk result (λ text. text ≡ self.now) }
    {
        Ok(self.clone()?)
    }
}

impl Clone for Text {
    ghost is_clone = { λ text copy. copy ≡ text };

    #[inline]
    fn clone(&self) -> Result<Self, AllocError> {
        let storage = match &self.storage {
            Storage::Short(few) => Storage::Short(few.copy()),
            Storage::Long(shared) => Storage::Long(Arc::clone(shared)?),
        };
        Ok(Text {
            alloc: self.alloc,
            storage,
        })
    }
}

// A few bytes, in place.
fn in_place(bytes: &[u8]) -> Storage
    requires { length bytes.now ≤ ROOM }
    ensures stored { bytes_of result ≡ bytes.now }
{
    let mut few = Few::new();
    few.push(bytes);
    Storage::Short(few)
}

// The bytes of a vector behind a counted pointer.
fn shared(alloc: Global, bytes: Vec<u8>) -> Result<Storage, NoMemory>
    ensures stored { IfOk result (λ storage. bytes_of storage ≡ bytes.items) }
{
    Ok(Storage::Long(Arc::new(alloc, Many::from_vec(bytes))?))
}

// A text of these few bytes goes to the end of a list. It is written at its place: a text that is built elsewhere, in
// pieces, and moved there as a whole takes three times as long.
#[inline]
fn push_few(alloc: Global, few: &Few, items: &mut Vec<Text>)
    requires room { vec_len items.old < vec_capacity items.old }
    ensures pushed { items.new.items ≡ items.old.items ++ few.now ∷ [] }
    ensures len { vec_len items.new ≡ vec_len items.old + 1 }
    ensures capacity { vec_capacity items.new ≡ vec_capacity items.old }
{
    let place = items.len();
    items.push_reserved(Text::new(alloc));
    items[place].set_few(few);
}

// A text of these bytes goes to the end of a list. It is a function of its own, so that the way of short texts is short.
#[inline(never)]
fn push_shared(alloc: Global, shared: &Arc<Many>, items: &mut Vec<Text>) -> Result<(), NoMemory>
    requires room { vec_len items.old < vec_capacity items.old }
    ensures pushed { OnOk result (items.new.items ≡ items.old.items ++ arc_value shared.now ∷ []) }
    ensures unchanged { OnErr result (items.new.items ≡ items.old.items) }
    ensures len { OnOk result (vec_len items.new ≡ vec_len items.old + 1) }
    ensures capacity { vec_capacity items.new ≡ vec_capacity items.old }
{
    let storage = Storage::Long(Arc::clone(shared)?);
    items.push_reserved(Text { alloc, storage });
    Ok(())
}

fn push_stored(alloc: Global, storage: &mut Storage, bytes: &[u8]) -> Result<(), NoMemory>
    ensures pushed { OnOk result (bytes_of storage.new ≡ bytes_of storage.old ++ bytes.now) }
    ensures unchanged { OnErr result (bytes_of storage.new ≡ bytes_of storage.old) }
{
    match storage {
        Storage::Short(few) => {
            if bytes.len() <= few.spare() {
                few.push(bytes);
            } else {
                *storage = shared(alloc, joined(alloc, few.as_slice(), bytes)?)?;
            }
        }
        Storage::Long(many) => match Arc::get_mut(many) {
            Some(many) => many.push(bytes)?,
            None => *storage = shared(alloc, joined(alloc, many.as_slice(), bytes)?)?,
        },
    }
    Ok(())
}

fn joined(alloc: Global, front: &[u8], back: &[u8]) -> Result<Vec<u8>, NoMemory>
    ensures { IfOk result (λ all. all.items ≡ front.now ++ back.now) }
{
    let mut all = Vec::from_slice(alloc, front)?;
    all.extend_from_slice(back)?;
    Ok(all)
}
