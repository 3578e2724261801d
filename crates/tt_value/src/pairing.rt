ghost use Rattle.std.specs.Prelude.{◌≡◌, IfOk, Ok, OnErr, OnOk};
ghost use Rattle.tt_pairs.specs.Pairs.{text_of, with_pair, without_key};
ghost use Rattle.tt_pairs.specs.Reading.{reading_of};
ghost use Rattle.tt_value.specs.inside.Paired.{alone, text_in};

use std::marker::Model;
use tt_pairs::Dictionary;
use tt_text::{NoMemory, Text};

/// A dictionary (dict(n)): its pairs, and its text. Contracts see both.
#[derive(Debug, Drop)]
pub(crate) struct Pairing {
    pairs: Dictionary,
    /// The text that the pairs were read from; None if it is their canonical one, which is made when it is asked for.
    given: Option<Text>,
}

impl Model for Pairing {
    ghost use Rattle.std.specs.Prelude.{◌≡◌, Ok};
    ghost use Rattle.tt_pairs.specs.Reading.{reading_of};
    ghost use Rattle.tt_value.specs.inside.Paired.{Paired, text_in};

    ghost Value = { Paired };

    ghost view = { λ pairing. record { pairs = pairing.pairs; text = text_in pairing.given pairing.pairs } };

    ghost invariant = { λ pairing. reading_of (text_in pairing.given pairing.pairs) ≡ Ok pairing.pairs };
}

impl Pairing {
    /// These pairs in their canonical text.
    #[tactic(auto, using(tt_pairs::proofs::PairLaws::reads_back))]
    pub(crate) fn from_pairs(pairs: Dictionary) -> Self
        ensures alone { result ≡ alone pairs }
    {
        pairs.keys_differ();
        Pairing { pairs, given: None }
    }

    /// A text with the pairs that it is read as.
    pub(crate) fn from_text(text: Text, pairs: Dictionary) -> Self
        requires read { reading_of text ≡ Ok pairs }
        ensures pairs { result.pairs ≡ pairs }
        ensures text { result.text ≡ text }
    {
        Pairing {
            pairs,
            given: Some(text),
        }
    }

    /// The pairs, which are what the text is read as.
    pub(crate) fn pairs(&self) -> &Dictionary
        ensures pairs { result.now ≡ self.now.pairs }
    {
        &self.pairs
    }

    /// What is known of them. Nothing runs here.
    pub(crate) fn is_read(&self)
        ensures read { reading_of self.now.text ≡ Ok self.now.pairs }
    {
        let _ = &self.pairs;
    }

    /// The text.
    pub(crate) fn text(&self) -> Result<Text, NoMemory>
        ensures text { IfOk result (λ text. text ≡ self.now.text) }
    {
        match &self.given {
            Some(text) => text.copy(),
            None => self.pairs.text(),
        }
    }

    /// The same pairs in their canonical text, of their own.
    pub(crate) fn copy_alone(&self) -> Result<Self, NoMemory>
        ensures copied { IfOk result (λ copy. copy ≡ alone self.now.pairs) }
    {
        let pairs = self.pairs.copy()?;
        Ok(Pairing::from_pairs(pairs))
    }

    /// Gives a key this value. The text is then the canonical one.
    ///
    /// `NoMemory` if memory is refused; then nothing is said of it.
    #[tactic(auto, using(tt_pairs::proofs::PairLaws::reads_back))]
    pub(crate) fn put(&mut self, key: Text, value: Text) -> Result<(), NoMemory>
        ensures put { OnOk result (self.new ≡ alone (with_pair self.old.pairs key value)) }
    {
        self.given = None;
        let put = self.pairs.put(key, value);
        self.pairs.keys_differ();
        put
    }

    /// Takes out the pair of a key. The text is then the canonical one.
    #[tactic(auto, using(tt_pairs::proofs::PairLaws::reads_back))]
    pub(crate) fn remove(&mut self, key: &Text)
        ensures removed { self.new ≡ alone (without_key self.old.pairs key.now) }
    {
        self.given = None;
        self.pairs.remove(key);
        self.pairs.keys_differ();
    }
}
