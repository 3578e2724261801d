ghost use Rattle.std.specs.Prelude.{◌≡◌, [], IfOk, IsSome, OnOk, Some, length, option_copied, option_map};
ghost use Rattle.tt_calls.specs.declared.reply.Reply.TheVariants.{Refused};
ghost use Rattle.tt_shared.specs.Mail.{queue_of};
ghost use Rattle.tt_shared.specs.Sends.{tells, unwinds};
ghost use Rattle.tt_shared.specs.State.{answer, is_marked, is_marked_life, room, start_state};
ghost use Rattle.tt_threads.specs.Rows.{is_living, row_of};
ghost use Rattle.tt_tsv.specs.Calls.{array_text};

use crate::{Applied, ErrorProcedure, Posts, Queues};
use std::alloc::Global;
use std::marker::Model;
use tt_calls::{Event, Reply, Start};
use tt_chans::Chans;
use tt_locks::Locks;
use tt_pools::Pools;
use tt_queue::Queue;
use tt_text::{NoMemory, Text};
use tt_threads::{Life, Threads};
use tt_tsv::Arrays;

/// The most threads that live at once.
const MOST_LIVING: u32 = 1_000;

/// What the threads share. Contracts see it part by part.
#[derive(Debug, Drop)]
pub struct Shared {
    pub(crate) threads: Threads,
    pub(crate) queues: Queues,
    pub(crate) posts: Posts,
    pub(crate) arrays: Arrays,
    pub(crate) locks: Locks,
    pub(crate) pools: Pools,
    pub(crate) chans: Chans,
    pub(crate) error_procedure: Option<ErrorProcedure>,
    pub(crate) input_ended: bool,
    pub(crate) over: Option<u8>,
    pub(crate) alloc: Global,
}

impl Model for Shared {
    ghost use Rattle.tt_shared.specs.State.{State};

    ghost Value = { State };

    ghost view = { λ shared. record {
      over = shared.over;
      rows = shared.threads;
      queues = shared.queues;
      posts = shared.posts;
      arrays = shared.arrays;
      locks = shared.locks;
      pools = shared.pools;
      channels = shared.chans;
      error_procedure = shared.error_procedure;
      input_ended = shared.input_ended;
    } };
}

impl Shared {
    /// Main alone, thread 1, which begins with this.
    ///
    /// `NoMemory` if memory for it is refused.
    pub fn new(alloc: Global, main: Start) -> Result<Shared, NoMemory>
        ensures new { IfOk result (λ shared. shared ≡ start_state main) }
    {
        let mut threads = Threads::new(alloc);
        threads.create(main, false, false)?;
        let mut queues = Queues::new(alloc);
        queues.add()?;
        Ok(Shared {
            threads,
            queues,
            posts: Posts::new(alloc),
            arrays: Arrays::new(alloc),
            locks: Locks::new(alloc),
            pools: Pools::new(alloc),
            chans: Chans::new(alloc),
            error_procedure: None,
            input_ended: false,
            over: None,
            alloc,
        })
    }

    /// What a thread that was made begins with. It takes no memory.
    pub fn start_of(&self, thread: u32) -> &Start
        requires made { IsSome (row_of self.now.rows thread) }
        ensures start { option_map (λ row. row.start) (row_of self.now.rows thread) ≡ Some result.now }
    {
        &self.threads.row(thread).unwrap().start
    }

    /// Whether a thread was made and has not ended. It takes no memory.
    pub fn lives(&self, thread: u32) -> bool
        ensures lives { result ≡ is_living self.now.rows thread }
    {
        self.threads.lives(thread)
    }

    /// How many threads were made, those that have ended among them. It takes no memory.
    pub fn thread_count(&self) -> u32
        ensures made { result ≡ length self.now.rows }
    {
        self.threads.thread_count()
    }

    /// The exit code of the run, from 0 to 255, if it is over. It takes no memory.
    pub fn over(&self) -> Option<u8>
        ensures over { result ≡ self.now.over }
    {
        self.over
    }

    /// The queue of a thread, one that has ended too; `None` exactly if there is no such thread. It takes no memory.
    pub fn queue_of(&self, thread: u32) -> Option<&Queue>
        ensures queue { option_copied result ≡ queue_of self.now.queues thread }
    {
        self.queues.of(thread)
    }

    /// The list of the keys of a shared array, each followed by its value (tsv(n), tsv::array get). `None` exactly if
    /// there is no such array.
    ///
    /// `NoMemory` if memory for it is refused.
    pub fn array_text(&self, name: &[u8]) -> Result<Option<Text>, NoMemory>
        ensures text { IfOk result (λ text. text ≡ array_text self.now.arrays name.now) }
    {
        self.arrays.text(name)
    }

    // A reply, with nothing written and no thread made.
    pub(crate) fn answer(&self, reply: Reply) -> Applied
        ensures { result ≡ answer self.now reply }
    {
        Applied {
            reply,
            out: Text::new(self.alloc),
            err: Text::new(self.alloc),
            over: self.over,
            made: 0,
        }
    }

    // A request that no command makes.
    pub(crate) fn not_asked(&self) -> Applied
        ensures { result ≡ answer self.now (Refused []) }
    {
        self.answer(Reply::Refused(Text::new(self.alloc)))
    }

    // A request that is refused with this message.
    pub(crate) fn refusal(&self, message: &[u8]) -> Result<Applied, NoMemory>
        ensures { IfOk result (λ gives. gives ≡ answer self.now (Refused message.now)) }
    {
        let message = Text::from_bytes(self.alloc, message)?;
        Ok(self.answer(Reply::Refused(message)))
    }

    // How many threads may still be made.
    pub(crate) fn room(&self) -> u32
        ensures { result ≡ room self.now }
    {
        MOST_LIVING.saturating_sub(self.threads.living())
    }

    // Whether a thread is to stop.
    pub(crate) fn is_marked(&self, thread: u32) -> bool
        ensures { result ≡ is_marked self.now thread }
    {
        self.threads
            .row(thread)
            .is_some_and(|row| is_marked(row.life))
    }

    // Whether an error stops a thread.
    pub(crate) fn unwinds(&self, thread: u32) -> bool
        ensures { result ≡ unwinds self.now thread }
    {
        self.threads.row(thread).is_some_and(|row| row.unwind)
    }

    // A script for a thread, of which nobody asks the answer.
    pub(crate) fn tell(&mut self, target: u32, script: Text, plain: bool) -> Result<(), NoMemory>
        ensures state { OnOk result (self.new ≡ tells self.old target script plain) }
    {
        let n = self.posts.next();
        self.posts.pass()?;
        let event = Event::Script {
            n,
            script,
            answer: false,
            plain,
        };
        self.queues.push(target, false, event)
    }
}

fn is_marked(life: Life) -> bool
    ensures { result ≡ is_marked_life life }
{
    matches!(life, Life::Marked)
}
