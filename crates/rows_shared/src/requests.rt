use crate::answers::CODES;
use crate::calls::{chan_call, lock_call, pool_call, tsv_call};
use crate::names::{Input, Name, OfMail, OfThread, Plain};
use rows_reader::Words;
use tt_calls::{Boxed, Mode, Outcome, Request};
use tt_shared::Line;

/// The request of a name and its words.
pub(crate) fn request_of(name: Name, words: &Words) -> anyhow::Result<Request> {
    match name {
        Name::Plain(which) => plain(which, words),
        Name::Thread(which) => of_thread(which, words),
        Name::Mail(which) => of_mail(which, words),
        Name::Variable(which) => {
            let call = tsv_call(which, words)?;
            Ok(Request::Tsv(Boxed::new(words.alloc, call)?))
        }
        Name::Lock(which) => {
            let call = lock_call(which, words)?;
            Ok(Request::Lock(Boxed::new(words.alloc, call)?))
        }
        Name::Pool(which) => {
            let call = pool_call(which, words)?;
            Ok(Request::Pool(Boxed::new(words.alloc, call)?))
        }
        Name::Channel(which) => {
            let call = chan_call(which, words)?;
            Ok(Request::Chan(Boxed::new(words.alloc, call)?))
        }
    }
}

/// What is read of standard input for it.
pub(crate) fn line_of(name: Name, words: &Words) -> anyhow::Result<Line> {
    match name {
        Name::Plain(Plain::ReadLine(input)) => read(input, words),
        _ => Ok(Line::NotRead),
    }
}

fn read(input: Input, words: &Words) -> anyhow::Result<Line> {
    match input {
        Input::Nothing => Ok(Line::NotRead),
        Input::Bytes => Ok(Line::Read(words.text(0)?)),
        Input::End => Ok(Line::End),
        Input::TooLong => Ok(Line::TooLong),
    }
}

fn plain(which: Plain, words: &Words) -> anyhow::Result<Request> {
    let request = match which {
        Plain::WriteOut => Request::WriteOut {
            text: words.text(0)?,
        },
        Plain::WriteErr => Request::WriteErr {
            text: words.text(0)?,
        },
        Plain::ReadLine(_) => Request::ReadLine,
        Plain::StdinEof => Request::StdinEof,
        Plain::Pause => Request::Pause,
        Plain::End => Request::End {
            code: words.whole(0)?,
        },
        Plain::Exit => Request::Exit {
            code: words.whole(0)?,
        },
    };
    Ok(request)
}

fn of_thread(which: OfThread, words: &Words) -> anyhow::Result<Request> {
    let request = match which {
        OfThread::Create => Request::Create {
            joinable: words.is(0, "joinable", "-")?,
            preserved: words.is(1, "preserved", "-")?,
            script: words.text(2)?,
        },
        OfThread::Preserve => Request::Preserve { id: words.text(0)? },
        OfThread::Release => Request::Release { id: words.text(0)? },
        OfThread::Names => Request::Names,
        OfThread::Exists => Request::Exists { id: words.text(0)? },
        OfThread::Join => Request::Join { id: words.text(0)? },
        OfThread::AwaitEnd => Request::AwaitEnd {
            thread: words.number(0)?,
        },
        OfThread::Configure => Request::Configure {
            id: words.text(0)?,
            words: words.list(1)?,
        },
    };
    Ok(request)
}

fn of_mail(which: OfMail, words: &Words) -> anyhow::Result<Request> {
    let request = match which {
        OfMail::NameProcedure => Request::ErrorProc {
            name: Some(words.text(0)?),
        },
        OfMail::AskProcedure => Request::ErrorProc { name: None },
        OfMail::Send => send(words)?,
        OfMail::Await => Request::Await {
            n: u64::from(words.number(0)?),
        },
        OfMail::Take => Request::Take,
        OfMail::TakeReady => Request::TakeReady,
        OfMail::Deliver => Request::Deliver {
            n: u64::from(words.number(0)?),
            outcome: outcome(words, 1)?,
        },
        OfMail::Report => Request::Report {
            trace: words.text(0)?,
            plain: words.is(1, "plain", "-")?,
        },
        OfMail::Broadcast => Request::Broadcast {
            script: words.text(0)?,
        },
    };
    Ok(request)
}

fn send(words: &Words) -> anyhow::Result<Request> {
    let mode = if words.is(2, "waits", "later")? {
        Mode::Waits
    } else {
        Mode::Later
    };
    Ok(Request::Send {
        id: words.text(0)?,
        script: words.text(1)?,
        mode,
        variable: words.name(3)?,
        head: words.is(4, "head", "tail")?,
    })
}

/// A code and a value; an error's trace is its message.
pub(crate) fn outcome(words: &Words, place: usize) -> anyhow::Result<Outcome> {
    let code = words.code(place, &CODES)?;
    let value = words.text(place.saturating_add(1))?;
    let mut outcome = Outcome::failed(value)?;
    outcome.code = code;
    Ok(outcome)
}
