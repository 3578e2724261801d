//! Requests on what threads share: a send and a take, a lock and an unlock, a job posted, begun and ended, and a line
//! put into a pipe and got, each with few and with many threads or with little and with much that is queued. Times are
//! in nanoseconds for one, and in microseconds for 16,384: so many lines of 64 bytes are 1 MiB.

use std::alloc::Global;
use std::rt::Clock;
use std::time::Instant;
use tt_calls::{
    Boxed, ChanCall, Family, Kind, LockCall, Mode, Outcome, PoolCall, Reply, Request, Start,
};
use tt_shared::{Line, Shared};
use tt_text::Text;

/// What is timed. It has a first half, which queues something, and a second one, which takes it away.
#[derive(Clone, Copy)]
enum Work {
    Sends,
    Locks,
    Jobs,
    Lines,
}

/// What is done, its name, among how many threads, and with how much queued. All threads but the first wait for the
/// lock, and the second is the worker of the pool.
type Case = (Work, &'static str, u32, u32);

const TOLD: [Case; 4] = [
    (Work::Sends, "sends", 10, 10),
    (Work::Locks, "locks", 10, 0),
    (Work::Jobs, "jobs", 10, 10),
    (Work::Lines, "lines", 10, 10),
];

const TIMED: [Case; 12] = [
    (Work::Sends, "a send and a take", 10, 10),
    (Work::Sends, "a send and a take", 10, 10_000),
    (Work::Sends, "a send and a take", 100, 10),
    (Work::Sends, "a send and a take", 100, 10_000),
    (Work::Sends, "a send and a take", 900, 10),
    (Work::Sends, "a send and a take", 900, 10_000),
    (Work::Locks, "a lock and an unlock", 2, 0),
    (Work::Locks, "a lock and an unlock", 901, 0),
    (Work::Jobs, "a job", 2, 10),
    (Work::Jobs, "a job", 2, 10_000),
    (Work::Lines, "a line", 2, 0),
    (Work::Lines, "a line", 2, 16_384),
];

// How many are timed together, and how many times; the least is reported.
const TIMES: u32 = 16_384;

const ROUNDS: u32 = 10;

const LINE: &[u8; 64] = b"a line of sixty-four bytes, the last one of which is a newline.\n";

pub(crate) fn run_all(
    rt: &(impl Clock + Print),
    alloc: Global,
    is_timed: bool,
) -> anyhow::Result<()> {
    let cases: &[Case] = if is_timed { &TIMED } else { &TOLD };
    for case in cases {
        run(rt, alloc, *case, is_timed)?;
    }
    Ok(())
}

fn run(rt: &(impl Clock + Print), alloc: Global, case: Case, is_timed: bool) -> anyhow::Result<()> {
    let mut shared = start(alloc)?;
    print(rt, alloc, case, is_timed, &mut shared)
}

fn print(
    rt: &(impl Clock + Print),
    alloc: Global,
    case: Case,
    is_timed: bool,
    shared: &mut Shared,
) -> anyhow::Result<()> {
    let (work, name, last, queued) = case;
    let bench = Bench { alloc, work, last };
    bench.prepare(shared, queued)?;
    if is_timed {
        let all = bench.least(rt, shared)?;
        let (one, all) = (all / u128::from(TIMES), all / 1_000);
        println!(rt; "{name}, {last} threads, {queued} queued: {one} ns, {TIMES} {all} us")?;
    } else {
        println!(rt; "{name}: {}", bench.turns(shared, 0, 1_000)?)?;
    }
    Ok(())
}

// Thread 1 alone, with an empty script.
fn start(alloc: Global) -> anyhow::Result<Shared> {
    let shared = Shared::new(alloc, Start::Script(Text::new(alloc)))?;
    Ok(shared)
}

// What is asked is answered at once, and not refused.
fn ask(shared: &mut Shared, thread: u32, request: &Request) -> anyhow::Result<()> {
    anyhow::ensure!(shared.lives(thread), "a thread that doesn't live");
    anyhow::ensure!(shared.enabled(thread, request), "a thread that waits");
    let gives = shared.apply(thread, request, Line::NotRead)?;
    anyhow::ensure!(!is_refused(&gives.reply), "a request that is refused");
    Ok(())
}

fn is_refused(reply: &Reply) -> bool {
    matches!(reply, Reply::Refused(_))
}

#[derive(Clone, Copy)]
struct Bench {
    alloc: Global,
    work: Work,
    last: u32,
}

impl Bench {
    fn text(self, bytes: &[u8]) -> anyhow::Result<Text> {
        let text = Text::from_bytes(self.alloc, bytes)?;
        Ok(text)
    }

    fn prepare(self, shared: &mut Shared, queued: u32) -> anyhow::Result<()> {
        self.make(shared)?;
        for _ in shared.thread_count()..self.last {
            self.create(shared)?;
        }
        for _ in 0..queued {
            self.begin(shared)?;
        }
        Ok(())
    }

    // The least time of the rounds.
    fn least(self, rt: &impl Clock, shared: &mut Shared) -> anyhow::Result<u128> {
        let (mut least, mut done) = (u128::MAX, 0_u32);
        for _ in 0..ROUNDS {
            let start = Instant::now(rt)?;
            done = self.turns(shared, done, TIMES)?;
            least = least.min(start.elapsed(rt)?.as_nanos());
        }
        Ok(least)
    }

    // How many are done then. Jobs are numbered from 1, and begun in that order.
    fn turns(self, shared: &mut Shared, done: u32, times: u32) -> anyhow::Result<u32> {
        let mut done = done;
        for _ in 0..times {
            self.begin(shared)?;
            done = done.saturating_add(1);
            self.end(shared, u64::from(done))?;
        }
        Ok(done)
    }

    fn begin(self, shared: &mut Shared) -> anyhow::Result<()> {
        match self.work {
            Work::Sends => self.send(shared),
            Work::Locks => self.lock(shared),
            Work::Jobs => self.post(shared),
            Work::Lines => self.put(shared),
        }
    }

    fn end(self, shared: &mut Shared, job: u64) -> anyhow::Result<()> {
        match self.work {
            Work::Sends => ask(shared, self.last, &Request::Take),
            Work::Locks => self.unlock(shared),
            Work::Jobs => self.work_off(shared, job),
            Work::Lines => self.get(shared),
        }
    }

    fn create(self, shared: &mut Shared) -> anyhow::Result<()> {
        let request = Request::Create {
            joinable: false,
            preserved: false,
            script: Text::new(self.alloc),
        };
        ask(shared, 1, &request)
    }

    // The lock, the pool of one worker and the pipe.
    fn make(self, shared: &mut Shared) -> anyhow::Result<()> {
        let kind = Kind::Exclusive;
        self.on_locks(shared, LockCall::Create { kind })?;
        let call = PoolCall::Create {
            least: 1,
            most: 1,
            init: Text::new(self.alloc),
            exit: Text::new(self.alloc),
        };
        self.on_pools(shared, 1, call)?;
        self.on_channels(shared, ChanCall::Pipe)
    }

    fn send(self, shared: &mut Shared) -> anyhow::Result<()> {
        let id = format!(in self.alloc; "tid{}", self.last)?;
        let request = Request::Send {
            id: self.text(id.as_bytes())?,
            script: self.text(b"set sent 1")?,
            mode: Mode::Later,
            variable: None,
            head: false,
        };
        ask(shared, 1, &request)
    }

    fn on_locks(self, shared: &mut Shared, call: LockCall) -> anyhow::Result<()> {
        ask(shared, 1, &Request::Lock(Boxed::new(self.alloc, call)?))
    }

    // Thread 1 has the lock then, and the last one waits for it.
    fn lock(self, shared: &mut Shared) -> anyhow::Result<()> {
        let id = self.text(b"mid1")?;
        let request = Request::Lock(Boxed::new(self.alloc, LockCall::Lock { id })?);
        ask(shared, 1, &request)?;
        let waits = shared.lives(self.last) && !shared.enabled(self.last, &request);
        anyhow::ensure!(waits, "a thread that doesn't wait");
        Ok(())
    }

    fn unlock(self, shared: &mut Shared) -> anyhow::Result<()> {
        let (family, id) = (Family::Mutex, self.text(b"mid1")?);
        self.on_locks(shared, LockCall::Unlock { family, id })
    }

    fn on_pools(self, shared: &mut Shared, thread: u32, call: PoolCall) -> anyhow::Result<()> {
        ask(
            shared,
            thread,
            &Request::Pool(Boxed::new(self.alloc, call)?),
        )
    }

    fn post(self, shared: &mut Shared) -> anyhow::Result<()> {
        let call = PoolCall::Post {
            pool: self.text(b"tpool1")?,
            script: self.text(b"set done 1")?,
            detached: true,
        };
        self.on_pools(shared, 1, call)
    }

    // The worker begins a job and ends it.
    fn work_off(self, shared: &mut Shared, job: u64) -> anyhow::Result<()> {
        let pool = self.text(b"tpool1")?;
        self.on_pools(shared, 2, PoolCall::JobTake { pool })?;
        let call = PoolCall::JobDone {
            pool: self.text(b"tpool1")?,
            job,
            outcome: Outcome::fine(self.alloc, Text::new(self.alloc)),
        };
        self.on_pools(shared, 2, call)
    }

    fn on_channels(self, shared: &mut Shared, call: ChanCall) -> anyhow::Result<()> {
        ask(shared, 1, &Request::Chan(Boxed::new(self.alloc, call)?))
    }

    fn put(self, shared: &mut Shared) -> anyhow::Result<()> {
        let (chan, bytes) = (self.text(b"chan2")?, self.text(LINE)?);
        self.on_channels(shared, ChanCall::Put { chan, bytes })
    }

    fn get(self, shared: &mut Shared) -> anyhow::Result<()> {
        let chan = self.text(b"chan1")?;
        self.on_channels(shared, ChanCall::GetLine { chan })
    }
}
