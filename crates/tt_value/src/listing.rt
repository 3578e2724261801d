ghost use Rattle.std.specs.Prelude.{◌≡◌, ◌++◌, ◌∷◌, [], ℕ, List, IfOk, OnErr, OnOk};
ghost use Rattle.tt_lists.specs.Reading.{split_of};
ghost use Rattle.tt_lists.specs.Spelling.{list_of};
ghost use Rattle.tt_value.specs.inside.Listed.{canonical};
ghost use Rattle.tt_value.specs.inside.Spellings.{IsSpelled, text_in};

use std::alloc::Global;
use std::marker::Model;
use tt_lists::{Split, join_list, push_item};
use tt_text::{NoMemory, Text, Texts};

/// How the text of a list is spelled (list(n)).
#[derive(Debug, Drop)]
pub(crate) enum Spelling {
    /// As the canonical text of the items, which is made when it is asked for.
    Unmade,
    /// As the canonical text of the items, which is this one.
    Canonical(Text),
    /// As this text, of which nothing is known but that it is split into the items.
    Given(Text),
}

/// A list (Tcl(n)): its items, and its text. Contracts see both.
#[derive(Debug, Drop)]
pub(crate) struct Listing {
    items: Vec<Text>,
    spelling: Spelling,
}

impl Model for Listing {
    ghost use Rattle.tt_value.specs.inside.Listed.{Listed};

    ghost Value = { Listed };

    ghost use Rattle.tt_value.specs.inside.Spellings.{IsSpelled, text_in};

    ghost view = { λ list. record { items = list.items.items; text = text_in list.spelling list.items.items } };

    ghost invariant = { λ list. IsSpelled list.spelling list.items.items };
}

impl Listing {
    /// The list of these items, in its canonical text.
    pub(crate) fn from_items(items: Vec<Text>) -> Self
        ensures list { result ≡ canonical items.items }
    {
        Listing {
            items,
            spelling: Spelling::Unmade,
        }
    }

    /// A text with the items that it is split into.
    pub(crate) fn from_text(text: Text, items: Vec<Text>) -> Self
        requires split { split_of text ≡ Split.Items items.items }
        ensures items { result.items ≡ items.items }
        ensures text { result.text ≡ text }
    {
        Listing {
            items,
            spelling: Spelling::Given(text),
        }
    }

    /// The items, which are what the text is split into.
    pub(crate) fn items(&self) -> &[Text]
        ensures items { result.now ≡ self.now.items }
    {
        self.items.as_slice()
    }

    /// The items as a vector. None is copied.
    pub(crate) fn into_items(self) -> Vec<Text>
        ensures items { result.items ≡ self.items }
    {
        let Listing { items, .. } = self;
        items
    }

    /// Copies of the items.
    pub(crate) fn copied_items(&self) -> Result<Vec<Text>, NoMemory>
        ensures items { IfOk result (λ items. items.items ≡ self.now.items) }
    {
        let items = Texts::from_copies(*self.items.allocator(), self.items.as_slice())?;
        Ok(items.into_vec())
    }

    /// What is known of them. Nothing runs here.
    #[tactic(auto, using(crate::proofs::AtEnd::is_split))]
    pub(crate) fn is_split(&self)
        ensures split { split_of self.now.text ≡ Split.Items self.now.items }
    {
        let _ = &self.items;
    }

    /// The text.
    pub(crate) fn text(&self, alloc: Global) -> Result<Text, NoMemory>
        ensures text { IfOk result (λ text. text ≡ self.now.text) }
    {
        match &self.spelling {
            Spelling::Unmade => join_list(alloc, self.items.as_slice()),
            Spelling::Canonical(text) | Spelling::Given(text) => text.copy(),
        }
    }

    /// Whether the text is there. No contract knows it.
    pub(crate) fn is_written(&self) -> bool {
        !matches!(self.spelling, Spelling::Unmade)
    }

    /// The text, which is kept from then on if there is memory for it.
    pub(crate) fn kept_text(&mut self, alloc: Global) -> Result<Text, NoMemory>
        ensures text { IfOk result (λ text. text ≡ self.old.text) }
        ensures same { self.new ≡ self.old }
    {
        let text = self.text(alloc)?;
        keep(&mut self.spelling, &text);
        Ok(text)
    }

    /// The same list, of its own. Each item is a copy.
    pub(crate) fn copy(&self) -> Result<Self, NoMemory>
        ensures copied { IfOk result (λ list. list ≡ self.now) }
    {
        Ok(Listing {
            items: self.copied_items()?,
            spelling: copied(&self.spelling)?,
        })
    }

    /// Puts items at the end. The text is then the canonical one of the longer list.
    ///
    /// `NoMemory` if memory is refused; then some of the items may be there.
    pub(crate) fn push_all(&mut self, alloc: Global, items: &[Text]) -> Result<(), NoMemory>
        ensures pushed { OnOk result (self.new ≡ canonical (self.old.items ++ items.now)) }
    {
        self.make_canonical();
        for item in items {
            self.push(alloc, item)?;
        }
        Ok(())
    }

    fn make_canonical(&mut self)
        ensures list { self.new ≡ canonical self.old.items }
    {
        make_canonical(&mut self.spelling);
    }

    // Puts an item at the end of a list; a canonical text that is there grows with it.
    fn push(&mut self, alloc: Global, item: &Text) -> Result<(), NoMemory>
        ensures pushed { OnOk result (self.new ≡ canonical (self.old.items ++ item.now ∷ [])) }
        ensures unchanged { OnErr result (self.new ≡ self.old) }
    {
        let copy = item.copy()?;
        self.items.reserve(1)?;
        lengthen(alloc, &mut self.spelling, item)?;
        self.items.push_reserved(copy);
        Ok(())
    }
}

// A text that was made is kept, if there may be one more copy of it.
fn keep(spelling: &mut Spelling, text: &Text)
    ensures text { (items : List (List ℕ)) →
        text_in spelling.old items ≡ text.now → text_in spelling.new items ≡ text.now }
    ensures spelled { (items : List (List ℕ)) →
        text_in spelling.old items ≡ text.now → IsSpelled spelling.old items → IsSpelled spelling.new items }
{
    let Spelling::Unmade = spelling else {
        return;
    };
    if let Ok(copy) = text.copy() {
        *spelling = Spelling::Canonical(copy);
    }
}

fn make_canonical(spelling: &mut Spelling)
    ensures text { (items : List (List ℕ)) → IsSpelled spelling.old items → text_in spelling.new items ≡ list_of items }
    ensures spelled { (items : List (List ℕ)) → IsSpelled spelling.old items → IsSpelled spelling.new items }
{
    if let Spelling::Given(_) = spelling {
        *spelling = Spelling::Unmade;
    }
}

// The spelling of a list that has one item more.
fn lengthen(alloc: Global, spelling: &mut Spelling, item: &Text) -> Result<(), NoMemory>
    ensures spelled { OnOk result ((items : List (List ℕ)) →
        IsSpelled spelling.old items → IsSpelled spelling.new (items ++ item.now ∷ [])) }
    ensures text { OnOk result ((items : List (List ℕ)) → IsSpelled spelling.old items →
        text_in spelling.new (items ++ item.now ∷ []) ≡ list_of (items ++ item.now ∷ [])) }
    ensures unchanged { OnErr result (spelling.new ≡ spelling.old) }
{
    match spelling {
        Spelling::Unmade => {}
        Spelling::Canonical(text) => push_item(alloc, text, item.as_bytes())?,
        Spelling::Given(_) => *spelling = Spelling::Unmade,
    }
    Ok(())
}

fn copied(spelling: &Spelling) -> Result<Spelling, NoMemory>
    ensures copied { IfOk result (λ copy. copy ≡ spelling.now) }
{
    match spelling {
        Spelling::Unmade => Ok(Spelling::Unmade),
        Spelling::Canonical(text) => Ok(Spelling::Canonical(text.copy()?)),
        Spelling::Given(text) => Ok(Spelling::Given(text.copy()?)),
    }
}
