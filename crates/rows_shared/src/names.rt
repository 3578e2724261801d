/// The requests that are no calls on variables, locks, pools or channels.
#[derive(Clone, Copy)]
pub(crate) enum Plain {
    WriteOut,
    WriteErr,
    ReadLine(Input),
    StdinEof,
    Pause,
    End,
    Exit,
}

/// What is read of standard input.
#[derive(Clone, Copy)]
pub(crate) enum Input {
    Nothing,
    Bytes,
    End,
    TooLong,
}

#[derive(Clone, Copy)]
pub(crate) enum OfThread {
    Create,
    Preserve,
    Release,
    Names,
    Exists,
    Join,
    AwaitEnd,
    Configure,
}

#[derive(Clone, Copy)]
pub(crate) enum OfMail {
    NameProcedure,
    AskProcedure,
    Send,
    Await,
    Take,
    TakeReady,
    Deliver,
    Report,
    Broadcast,
}

#[derive(Clone, Copy)]
pub(crate) enum OfVariable {
    Hold,
    Unhold,
    Run,
}

#[derive(Clone, Copy)]
pub(crate) enum OfLock {
    Create,
    Destroy,
    Lock,
    ReadLock,
    WriteLock,
    Unlock,
    Notify,
    CondWait,
    CondTake,
}

#[derive(Clone, Copy)]
pub(crate) enum OfPool {
    Create,
    Names,
    Post,
    Look,
    Cancel,
    Get,
    Preserve,
    Release,
    Suspend,
    Resume,
    JobTake,
    JobDone,
}

#[derive(Clone, Copy)]
pub(crate) enum OfChannel {
    Pipe,
    Put,
    GetLine,
    Eof,
    Close,
    Detach,
    Attach,
    Transfer,
    AwaitMove,
}

/// A request, by its family.
#[derive(Clone, Copy)]
pub(crate) enum Name {
    Plain(Plain),
    Thread(OfThread),
    Mail(OfMail),
    Variable(OfVariable),
    Lock(OfLock),
    Pool(OfPool),
    Channel(OfChannel),
}

use Name::{Channel, Lock, Mail, Pool, Thread, Variable};

// How requests are written: a name, how many words follow, and which it is.
const NAMES: [(&str, usize, Name); 60] = [
    ("write-out", 1, Name::Plain(Plain::WriteOut)), // text
    ("write-err", 1, Name::Plain(Plain::WriteErr)), // text
    ("read", 1, Name::Plain(Plain::ReadLine(Input::Bytes))), // the bytes of standard input
    ("read-end", 0, Name::Plain(Plain::ReadLine(Input::End))),
    ("read-long", 0, Name::Plain(Plain::ReadLine(Input::TooLong))),
    (
        "read-nothing",
        0,
        Name::Plain(Plain::ReadLine(Input::Nothing)),
    ),
    ("eof", 0, Name::Plain(Plain::StdinEof)),
    ("pause", 0, Name::Plain(Plain::Pause)),
    ("end", 1, Name::Plain(Plain::End)), // code
    ("exit", 1, Name::Plain(Plain::Exit)), // code
    ("create", 3, Thread(OfThread::Create)), // joinable|- preserved|- script
    ("preserve", 1, Thread(OfThread::Preserve)), // id
    ("release", 1, Thread(OfThread::Release)), // id
    ("names", 0, Thread(OfThread::Names)),
    ("exists", 1, Thread(OfThread::Exists)), // id
    ("join", 1, Thread(OfThread::Join)), // id
    ("await-end", 1, Thread(OfThread::AwaitEnd)), // number of the thread
    ("configure", 2, Thread(OfThread::Configure)), // id, list of options and values
    ("errorproc", 1, Mail(OfMail::NameProcedure)), // name
    ("errorproc", 0, Mail(OfMail::AskProcedure)),
    ("send", 5, Mail(OfMail::Send)), // id script waits|later variable|- head|tail
    ("await", 1, Mail(OfMail::Await)), // post
    ("take", 0, Mail(OfMail::Take)),
    ("take-ready", 0, Mail(OfMail::TakeReady)),
    ("deliver", 3, Mail(OfMail::Deliver)), // post code value
    ("report", 2, Mail(OfMail::Report)), // trace plain|-
    ("broadcast", 1, Mail(OfMail::Broadcast)), // script
    ("hold", 1, Variable(OfVariable::Hold)), // array
    ("unhold", 1, Variable(OfVariable::Unhold)), // array
    ("tsv", 1, Variable(OfVariable::Run)), // list of a command's words
    ("lock-create", 1, Lock(OfLock::Create)), // kind
    ("lock-destroy", 2, Lock(OfLock::Destroy)), // family id
    ("lock", 1, Lock(OfLock::Lock)), // id
    ("read-lock", 1, Lock(OfLock::ReadLock)), // id
    ("write-lock", 1, Lock(OfLock::WriteLock)), // id
    ("unlock", 2, Lock(OfLock::Unlock)), // family id
    ("notify", 1, Lock(OfLock::Notify)), // id
    ("cond-wait", 2, Lock(OfLock::CondWait)), // condition mutex
    ("cond-take", 2, Lock(OfLock::CondTake)), // condition mutex
    ("pool-create", 4, Pool(OfPool::Create)), // least most init exit
    ("pool-names", 0, Pool(OfPool::Names)),
    ("post", 3, Pool(OfPool::Post)), // pool script detached|-
    ("look", 2, Pool(OfPool::Look)), // pool jobs
    ("cancel", 2, Pool(OfPool::Cancel)), // pool jobs
    ("get", 2, Pool(OfPool::Get)), // pool job
    ("pool-preserve", 1, Pool(OfPool::Preserve)), // pool
    ("pool-release", 1, Pool(OfPool::Release)), // pool
    ("suspend", 1, Pool(OfPool::Suspend)), // pool
    ("resume", 1, Pool(OfPool::Resume)), // pool
    ("job-take", 1, Pool(OfPool::JobTake)), // pool
    ("job-done", 4, Pool(OfPool::JobDone)), // pool job code value
    ("pipe", 0, Channel(OfChannel::Pipe)),
    ("put", 2, Channel(OfChannel::Put)), // channel bytes
    ("get-line", 1, Channel(OfChannel::GetLine)), // channel
    ("chan-eof", 1, Channel(OfChannel::Eof)), // channel
    ("close", 1, Channel(OfChannel::Close)), // channel
    ("detach", 1, Channel(OfChannel::Detach)), // channel
    ("attach", 1, Channel(OfChannel::Attach)), // channel
    ("transfer", 2, Channel(OfChannel::Transfer)), // id channel
    ("await-move", 1, Channel(OfChannel::AwaitMove)), // channel
];

/// The request that is written with this name and so many words after it.
pub(crate) fn name_of(word: &[u8], count: usize) -> anyhow::Result<Name> {
    for (name, most, which) in NAMES {
        if word == name.as_bytes() && count == most {
            return Ok(which);
        }
    }
    anyhow::bail!("no request")
}
