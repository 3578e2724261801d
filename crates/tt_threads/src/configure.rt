ghost use Rattle.std.specs.Prelude.{◌≡◌, IfOk};
ghost use Rattle.tt_lists.specs.Spelling.{list_of};
ghost use Rattle.tt_threads.specs.Requests.{bit, setting_of, settings, settings_of, with_mark, with_setting};
ghost use Rattle.tt_threads.specs.Requests.{with_settings};

use crate::Row;
use std::alloc::Global;
use tt_ids::number_text;
use tt_lists::join_list;
use tt_number::read_whole;
use tt_text::{NoMemory, Text, Texts};

const EVENT_MARK: &[u8] = b"-eventmark";

const UNWIND_ON_ERROR: &[u8] = b"-unwindonerror";

/// What can be set of a thread (thread(n), thread::configure).
#[derive(Clone, Copy, Debug)]
pub(crate) struct Settings {
    pub eventmark: u64,
    pub unwind: bool,
}

impl Settings {
    /// Those of a thread.
    pub(crate) fn of(row: &Row) -> Self
        ensures { result ≡ settings_of row.now }
    {
        Settings {
            eventmark: row.eventmark,
            unwind: row.unwind,
        }
    }

    /// The text of all of them, each after its option.
    pub(crate) fn all(self, alloc: Global) -> Result<Text, NoMemory>
        ensures { IfOk result (λ text. text ≡ list_of (settings self)) }
    {
        let mut words = Texts::new(alloc);
        words.push(Text::from_bytes(alloc, EVENT_MARK)?)?;
        words.push(number_text(alloc, self.eventmark)?)?;
        words.push(Text::from_bytes(alloc, UNWIND_ON_ERROR)?)?;
        words.push(bit(alloc, self.unwind)?)?;
        join_list(alloc, words.as_slice())
    }

    /// The text of the one of this option.
    pub(crate) fn one(self, alloc: Global, option: &[u8]) -> Result<Option<Text>, NoMemory>
        ensures { IfOk result (λ text. text ≡ setting_of self option.now) }
    {
        if option == EVENT_MARK {
            let mark = number_text(alloc, self.eventmark)?;
            return Ok(Some(mark));
        }
        if option == UNWIND_ON_ERROR {
            let unwind = bit(alloc, self.unwind)?;
            return Ok(Some(unwind));
        }
        Ok(None)
    }

    /// They with the options and values in turn; none if one of them is none.
    pub(crate) fn with_all(self, words: &[Text]) -> Option<Settings>
        ensures { result ≡ with_settings words.now self }
    {
        let mut settings = self;
        let mut rest = words;
        while let Some((option, later)) = rest.split_first() {
            let (value, later) = later.split_first()?;
            settings = settings.with(option.as_bytes(), value.as_bytes())?;
            rest = later;
        }
        Some(settings)
    }

    fn with(self, option: &[u8], value: &[u8]) -> Option<Settings>
        ensures { result ≡ with_setting option.now value.now self }
    {
        let value = read_whole(value).ok()?;
        if option == EVENT_MARK {
            return self.with_mark(value);
        }
        if option == UNWIND_ON_ERROR {
            return Some(Settings {
                unwind: value != 0,
                ..self
            });
        }
        None
    }

    fn with_mark(self, mark: i64) -> Option<Settings>
        ensures { result ≡ with_mark self mark }
    {
        let eventmark = u64::try_from(mark).ok()?;
        Some(Settings { eventmark, ..self })
    }
}

/// A boolean, as the table of threads reports it.
pub(crate) fn bit(alloc: Global, is_set: bool) -> Result<Text, NoMemory>
    ensures { IfOk result (λ text. text ≡ bit is_set) }
{
    Text::from_bytes(alloc, if is_set { b"1" } else { b"0" })
}
