use std::alloc::Global;
use tt_calls::Code;
use tt_lists::{Split, split};
use tt_number::read_whole;
use tt_text::{NoMemory, Text, Texts};

/// The words of a line, after its name.
#[derive(Drop)]
pub struct Words<'a> {
    pub alloc: Global,
    pub words: &'a [Text],
}

/// The words of a text.
pub fn words_of(alloc: Global, text: &[u8]) -> anyhow::Result<Texts> {
    match split(alloc, text)? {
        Split::Items(words) => Ok(words),
        Split::Bad(_) => anyhow::bail!("a line that is no list"),
    }
}

/// A text as a number that isn't negative.
pub fn number_of(text: &[u8]) -> anyhow::Result<u32> {
    let number = u32::try_from(whole_of(text)?)?;
    Ok(number)
}

/// A text as a whole number.
pub fn whole_of(text: &[u8]) -> anyhow::Result<i64> {
    match read_whole(text) {
        Ok(number) => Ok(number),
        Err(_) => anyhow::bail!("a word that is no number"),
    }
}

/// The same texts.
pub fn copies(alloc: Global, texts: &[Text]) -> Result<Texts, NoMemory> {
    let mut copies = Texts::new(alloc);
    for text in texts {
        copies.push(text.copy()?)?;
    }
    Ok(copies)
}

/// The text with a newline in each place of `\n`.
pub fn with_newlines(alloc: Global, text: &[u8]) -> anyhow::Result<Text> {
    replaced(alloc, text, "\\n", "\n")
}

/// The text with the second of these words in each place of the first.
pub fn replaced(alloc: Global, text: &[u8], old: &str, new: &str) -> anyhow::Result<Text> {
    let text = str::from_utf8(text)?.replace(alloc, old, new)?;
    let replaced = Text::from_bytes(alloc, text.as_bytes())?;
    Ok(replaced)
}

/// What is shown of a text.
pub fn shown(text: &Text) -> &str {
    str::from_utf8(text.as_bytes()).unwrap_or("no UTF-8")
}

impl Words<'_> {
    /// The bytes of the word at a place.
    pub fn bytes(&self, place: usize) -> anyhow::Result<&[u8]> {
        match self.words.get(place) {
            Some(word) => Ok(word.as_bytes()),
            None => anyhow::bail!("too few words"),
        }
    }

    /// The word at a place.
    pub fn text(&self, place: usize) -> anyhow::Result<Text> {
        let text = Text::from_bytes(self.alloc, self.bytes(place)?)?;
        Ok(text)
    }

    /// The word at a place, in which `\n` stands for a newline.
    pub fn lines(&self, place: usize) -> anyhow::Result<Text> {
        with_newlines(self.alloc, self.bytes(place)?)
    }

    /// A number that isn't negative.
    pub fn number(&self, place: usize) -> anyhow::Result<u32> {
        number_of(self.bytes(place)?)
    }

    /// A whole number.
    pub fn whole(&self, place: usize) -> anyhow::Result<i64> {
        whole_of(self.bytes(place)?)
    }

    /// The number of a post.
    pub fn post(&self, place: usize) -> anyhow::Result<u64> {
        let number = self.number(place)?;
        Ok(u64::from(number))
    }

    /// A word that is 1 or 0.
    pub fn flag(&self, place: usize) -> anyhow::Result<bool> {
        self.is(place, "1", "0")
    }

    /// The word at a place as a list.
    pub fn list(&self, place: usize) -> anyhow::Result<Texts> {
        words_of(self.alloc, self.bytes(place)?)
    }

    /// Whether the word is the first of these; else it has to be the second.
    pub fn is(&self, place: usize, yes: &str, no: &str) -> anyhow::Result<bool> {
        let word = self.bytes(place)?;
        anyhow::ensure!(
            word == yes.as_bytes() || word == no.as_bytes(),
            "another word"
        );
        Ok(word == yes.as_bytes())
    }

    /// A name, or `-` for none.
    pub fn name(&self, place: usize) -> anyhow::Result<Option<Text>> {
        if self.bytes(place)? == b"-".as_slice() {
            return Ok(None);
        }
        let name = self.text(place)?;
        Ok(Some(name))
    }

    /// A code, as this table names it (catch(n)).
    pub fn code(&self, place: usize, codes: &[(&str, Code)]) -> anyhow::Result<Code> {
        let word = self.bytes(place)?;
        for (name, code) in codes {
            if word == name.as_bytes() {
                return Ok(*code);
            }
        }
        anyhow::bail!("no code")
    }
}
