use crate::replies::read_reply;
use crate::requests::request_text;
use crate::row::{Exchange, Row};
use std::alloc::Global;
use tt_calls::{Reply, Request, Start, fits};
use tt_interp::{Interp, Setup};
use tt_text::{NoMemory, Text, Texts};

/// What is asked first that the row doesn't say.
pub(crate) fn run(alloc: Global, row: &Row) -> anyhow::Result<Option<Text>> {
    let mut interp = begin(alloc, row)?;
    let mut reply = None;
    for exchange in row.exchanges.as_slice() {
        if !interp.can_resume(&reply) {
            return failure_text(alloc, b"nothing");
        }
        interp.resume(reply)?;
        let request = interp.request();
        let asked = request_text(alloc, request)?;
        if asked != exchange.asked {
            return Ok(Some(asked));
        }
        reply = reply_to(alloc, request, exchange)?;
    }
    if !row.open && interp.can_resume(&Some(Reply::Go)) {
        return failure_text(alloc, b"more");
    }
    Ok(None)
}

// Only a type that may go to another thread is taken.
fn is_send<T: Send>() {}

fn begin(alloc: Global, row: &Row) -> Result<Interp, NoMemory> {
    is_send::<Interp>();
    let setup = Setup {
        script: Text::from_bytes(alloc, row.text())?,
        name: Text::from_bytes(alloc, b"rows")?,
        arguments: Texts::new(alloc),
        limit: row.limit,
    };
    let start = Start::Script(setup.script.copy()?);
    Interp::new(alloc, &start, row.me, &setup)
}

fn failure_text(alloc: Global, text: &[u8]) -> anyhow::Result<Option<Text>> {
    let text = Text::from_bytes(alloc, text)?;
    Ok(Some(text))
}

fn reply_to(
    alloc: Global,
    request: &Request,
    exchange: &Exchange,
) -> anyhow::Result<Option<Reply>> {
    if exchange.reply.is_empty() {
        return Ok(None);
    }
    let reply = read_reply(alloc, &exchange.reply)?;
    anyhow::ensure!(fits(request, &reply), "a reply that doesn't fit");
    Ok(Some(reply))
}
