ghost use Rattle.std.specs.Prelude.{◌≡◌, ◌<◌, ◌-◌, ◌^◌, ◌++◌, codes, IfOk, IfNone, IfSome, OnOk, length, ℕ, None};
ghost use Rattle.std.specs.Prelude.{is_some};
ghost use Rattle.tt_calls.specs.declared.reply.Reply.TheVariants.{Value};
ghost use Rattle.tt_lists.specs.Spelling.{list_of};
ghost use Rattle.tt_threads.specs.Requests.{act, bit, configures_of, counts_of, exits, has_no_thread, joins_named};
ghost use Rattle.tt_threads.specs.Requests.{joins_of, linked_ids, thread_named, with_reference, without_reference};
ghost use Rattle.tt_threads.specs.Requests.{settings_report};
ghost use Rattle.tt_threads.specs.inside.Settings.{with_settings};
ghost use Rattle.tt_threads.specs.Rows.{linked_thread, row_of};

use crate::configure::{Settings, bit};
use crate::{Life, Row, Threads, find};
use std::alloc::Global;
use tt_calls::{Reply, Request};
use tt_ids::{IdKind, count_with, id_text};
use tt_lists::join_list;
use tt_number::whole_text;
use tt_text::{NoMemory, Text, Texts};

impl Threads {
    /// What a request of the thread `asker` on the table of threads does to it, and its reply: Preserve, Release,
    /// Names, Exists, Join, AwaitEnd of a thread that has ended, and Configure. Any other is refused with the empty
    /// text. The stop that a release sends is not sent here (thread(n)).
    ///
    /// `NoMemory` if memory for the reply is refused.
    pub fn apply(&mut self, asker: u32, request: &Request) -> Result<Reply, NoMemory>
        ensures rows { OnOk result (self.new ≡ (act self.old asker request.now).rows) }
        ensures reply { IfOk result (λ reply. reply ≡ (act self.old asker request.now).reply) }
    {
        match request {
            Request::Preserve { id } => match self.named(asker, id) {
                Some(number) => self.preserve(number),
                None => self.no_thread(id),
            },
            Request::Release { id } => match self.named(asker, id) {
                Some(number) => self.release(number),
                None => self.no_thread(id),
            },
            Request::Names => self.names(),
            Request::Exists { id } => self.exists(id),
            Request::Join { id } => self.join_named(asker, id),
            Request::AwaitEnd { thread } => self.exit_code(*thread),
            Request::Configure { id, words } => match self.linked(id.as_bytes()) {
                Some(number) => self.configure(number, words.as_slice()),
                None => self.no_thread(id),
            },
            _ => Ok(Reply::Refused(Text::new(self.alloc))),
        }
    }

    // The thread of this id, the empty one being the asker's.
    fn named(&self, asker: u32, id: &Text) -> Option<u32>
        ensures { result ≡ thread_named self.now asker id.now }
    {
        if id.is_empty() {
            return Some(asker);
        }
        self.linked(id.as_bytes())
    }

    fn no_thread(&self, id: &Text) -> Result<Reply, NoMemory>
        ensures { IfOk result (λ reply. reply ≡ (has_no_thread self.now id.now).reply) }
    {
        let message = message(self.alloc, id, b"\" does not exist")?;
        Ok(Reply::Refused(message))
    }

    // The ids of the linked threads.
    fn names(&self) -> Result<Reply, NoMemory>
        ensures { IfOk result (λ reply. reply ≡ Value (list_of (linked_ids 1 self.now))) }
    {
        let ids = linked_ids(self.alloc, self.rows.as_slice())?;
        let text = join_list(self.alloc, ids.as_slice())?;
        Ok(Reply::Value(text))
    }

    // Whether a linked thread has this id.
    fn exists(&self, id: &Text) -> Result<Reply, NoMemory>
        ensures { IfOk result (λ reply. reply ≡ Value (bit (is_some (linked_thread self.now id.now)))) }
    {
        let text = bit(self.alloc, self.linked(id.as_bytes()).is_some())?;
        Ok(Reply::Value(text))
    }

    // The thread of this id is waited for.
    fn join_named(&mut self, asker: u32, id: &Text) -> Result<Reply, NoMemory>
        ensures rows { OnOk result (self.new ≡ (joins_named self.old asker id.now).rows) }
        ensures reply { IfOk result (λ reply. reply ≡ (joins_named self.old asker id.now).reply) }
    {
        match find::thread_of_id(self.rows.as_slice(), id.as_bytes()) {
            None => self.no_thread(id),
            Some(number) if number == asker => {
                let message = Text::from_bytes(self.alloc, b"cannot join oneself")?;
                Ok(Reply::Refused(message))
            }
            Some(number) => self.join(id, number),
        }
    }

    // The settings of a thread are answered or changed.
    fn configure(&mut self, number: u32, words: &[Text]) -> Result<Reply, NoMemory>
        ensures rows { OnOk result (self.new ≡ (configures_of self.old number words.now).rows) }
        ensures reply { IfOk result (λ reply. reply ≡ (configures_of self.old number words.now).reply) }
    {
        let Some(place) = self.place(number) else {
            return Ok(Reply::Refused(Text::new(self.alloc)));
        };
        let settings = Settings::of(&self.rows[place]);
        if words.len() < 2 {
            return settings_reply(self.alloc, settings, words);
        }
        match settings.with_all(words) {
            Some(settings) => {
                self.set(place, settings);
                Ok(Reply::Go)
            }
            None => Ok(Reply::Refused(Text::new(self.alloc))),
        }
    }

    // Where the row of a thread is; none if there is none.
    fn place(&self, number: u32) -> Option<usize>
        ensures found { IfSome result (λ place. (place < length self.now) × (place ≡ number - 1) × (0 < number)) }
        ensures none { IfNone result (row_of self.now number ≡ None) }
    {
        let place = usize::try_from(number).ok()?.checked_sub(1)?;
        (place < self.rows.len()).then_some(place)
    }

    // One hold more of a thread.
    #[tactic(auto, using(crate::proofs::Living::living_same))]
    fn preserve(&mut self, number: u32) -> Result<Reply, NoMemory>
        ensures rows { OnOk result (self.new ≡ (counts_of with_reference self.old number).rows) }
        ensures reply { IfOk result (λ reply. reply ≡ (counts_of with_reference self.old number).reply) }
    {
        let Some(place) = self.place(number) else {
            return Ok(Reply::Refused(Text::new(self.alloc)));
        };
        let row = &mut self.rows[place];
        let count = count_with(row.count, 1)?;
        row.count = count;
        let text = whole_text(self.alloc, count)?;
        Ok(Reply::Value(text))
    }

    // One hold less of a thread.
    #[tactic(auto, using(crate::proofs::Living::living_same))]
    fn release(&mut self, number: u32) -> Result<Reply, NoMemory>
        ensures rows { OnOk result (self.new ≡ (counts_of without_reference self.old number).rows) }
        ensures reply { IfOk result (λ reply. reply ≡ (counts_of without_reference self.old number).reply) }
    {
        let Some(place) = self.place(number) else {
            return Ok(Reply::Refused(Text::new(self.alloc)));
        };
        let row = &mut self.rows[place];
        row.release()?;
        let count = row.count;
        let text = whole_text(self.alloc, count)?;
        Ok(Reply::Value(text))
    }

    // The thread of this id is waited for, which can be once.
    #[tactic(auto, using(crate::proofs::Living::living_same))]
    fn join(&mut self, id: &Text, number: u32) -> Result<Reply, NoMemory>
        ensures rows { OnOk result (self.new ≡ (joins_of self.old id.now number).rows) }
        ensures reply { IfOk result (λ reply. reply ≡ (joins_of self.old id.now number).reply) }
    {
        let Some(place) = self.place(number) else {
            return Ok(Reply::Refused(Text::new(self.alloc)));
        };
        let row = &self.rows[place];
        match (row.joinable, row.joined) {
            (false, _) => {
                let message = message(self.alloc, id, b"\" is not joinable")?;
                Ok(Reply::Refused(message))
            }
            (true, true) => {
                let message = message(self.alloc, id, b"\" is already joined")?;
                Ok(Reply::Refused(message))
            }
            (true, false) => {
                self.rows[place].joined = true;
                Ok(Reply::Waits(number))
            }
        }
    }

    // The thread has these settings.
    #[tactic(auto, using(crate::proofs::Living::living_same))]
    fn set(&mut self, place: usize, settings: Settings)
        requires { place < length self.old }
        ensures { self.new ≡ with_settings self.old place settings }
    {
        let row = &mut self.rows[place];
        row.eventmark = settings.eventmark;
        row.unwind = settings.unwind;
    }

    // The exit code of a thread that has ended.
    fn exit_code(&self, number: u32) -> Result<Reply, NoMemory>
        ensures reply { IfOk result (λ reply. reply ≡ (exits self.now (row_of self.now number)).reply) }
    {
        match self.row(number) {
            Some(
                Row {
                    life: Life::Ended(code),
                    ..
                },
            ) => {
                let text = whole_text(self.alloc, *code)?;
                Ok(Reply::Value(text))
            }
            _ => Ok(Reply::Refused(Text::new(self.alloc))),
        }
    }
}

fn message(alloc: Global, id: &Text, fault: &[u8]) -> Result<Text, NoMemory>
    ensures { IfOk result (λ text. text ≡ codes "thread \"" ++ (id.now ++ fault.now)) }
{
    let mut text = Text::from_bytes(alloc, b"thread \"")?;
    text.push_bytes(id.as_bytes())?;
    text.push_bytes(fault)?;
    Ok(text)
}

fn linked_ids(alloc: Global, rows: &[Row]) -> Result<Texts, NoMemory>
    ensures { IfOk result (λ ids. ids ≡ linked_ids 1 rows.now) }
{
    let mut ids = Texts::new(alloc);
    for (place, row) in rows.iter().enumerate() {
        if row.life.is_linked() {
            ids.push(id_text(alloc, IdKind::Thread, place as u64 + 1)?)?;
        }
    }
    Ok(ids)
}

// All settings if no word asks for one.
fn settings_reply(alloc: Global, settings: Settings, words: &[Text]) -> Result<Reply, NoMemory>
    ensures { IfOk result (λ reply. reply ≡ settings_report settings words.now) }
{
    let Some(option) = words.first() else {
        let text = settings.all(alloc)?;
        return Ok(Reply::Value(text));
    };
    match settings.one(alloc, option.as_bytes())? {
        Some(value) => Ok(Reply::Value(value)),
        None => Ok(Reply::Refused(Text::new(alloc))),
    }
}
