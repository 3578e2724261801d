use std::alloc::Global;
use tt_calls::{Code, Outcome};
use tt_lists::join_list;
use tt_number::whole_text;
use tt_text::{NoMemory, Text, Texts};

/// How codes are written (catch(n)).
pub(crate) const CODES: [(&str, Code); 5] = [
    ("Fine", Code::Fine),
    ("Failed", Code::Failed),
    ("Returned", Code::Returned),
    ("Broke", Code::Broke),
    ("Continued", Code::Continued),
];

/// The words that name something.
#[derive(Drop)]
pub(crate) struct Telling {
    alloc: Global,
    words: Texts,
}

impl Telling {
    pub(crate) fn new(alloc: Global) -> Self {
        Telling {
            alloc,
            words: Texts::new(alloc),
        }
    }

    pub(crate) fn word(&mut self, word: &str) -> Result<(), NoMemory> {
        self.words
            .push(Text::from_bytes(self.alloc, word.as_bytes())?)
    }

    pub(crate) fn text(&mut self, text: &Text) -> Result<(), NoMemory> {
        self.words.push(text.copy()?)
    }

    pub(crate) fn whole(&mut self, number: i64) -> Result<(), NoMemory> {
        self.words.push(whole_text(self.alloc, number)?)
    }

    pub(crate) fn post(&mut self, n: u64) -> Result<(), NoMemory> {
        self.whole(i64::try_from(n).unwrap_or(i64::MAX))
    }

    pub(crate) fn flag(&mut self, flag: bool) -> Result<(), NoMemory> {
        self.whole(i64::from(flag))
    }

    /// A name, or `-` for none.
    pub(crate) fn name(&mut self, name: Option<&Text>) -> Result<(), NoMemory> {
        match name {
            Some(name) => self.text(name),
            None => self.word("-"),
        }
    }

    pub(crate) fn list(&mut self, texts: &Texts) -> Result<(), NoMemory> {
        self.words.push(join_list(self.alloc, texts.as_slice())?)
    }

    pub(crate) fn code(&mut self, code: Code) -> Result<(), NoMemory> {
        for (name, which) in CODES {
            if which == code {
                self.word(name)?;
            }
        }
        Ok(())
    }

    /// A code, a value, a trace and a kept code.
    pub(crate) fn outcome(&mut self, outcome: &Outcome) -> Result<(), NoMemory> {
        self.code(outcome.code)?;
        self.text(&outcome.value.to_text(self.alloc)?)?;
        self.text(&outcome.trace)?;
        self.code(outcome.kept)
    }

    /// The list of the words.
    pub(crate) fn joined(&self) -> Result<Text, NoMemory> {
        join_list(self.alloc, self.words.as_slice())
    }
}
