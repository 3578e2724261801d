//! Scripts are run by an interpreter, and each request that can be answered `Go` is answered so.

use crate::row::Came;
use std::alloc::Global;
use tt_calls::{Reply, Request, Start, fits};
use tt_interp::{Interp, Setup};
use tt_number::whole_text;
use tt_text::{NoMemory, Text, Texts};

/// What a main script comes to that may spend so many units. One that asks for an answer is left there, without a code.
pub fn run(alloc: Global, script: &Text, limit: u64) -> Result<Came, NoMemory> {
    let mut interp = begin(alloc, script, limit)?;
    let mut came = Came::new(alloc);
    let mut reply = None;
    for _ in 0..u64::MAX {
        if !interp.can_resume(&reply) {
            return Ok(came);
        }
        interp.resume(reply)?;
        let request = interp.request();
        take(alloc, &mut came, request)?;
        if !fits(request, &Reply::Go) {
            return Ok(came);
        }
        reply = Some(Reply::Go);
    }
    Ok(came)
}

fn begin(alloc: Global, script: &Text, limit: u64) -> Result<Interp, NoMemory> {
    let setup = Setup {
        script: script.copy()?,
        name: Text::from_bytes(alloc, b"rows")?,
        arguments: Texts::new(alloc),
        limit,
    };
    let start = Start::Script(script.copy()?);
    Interp::new(alloc, &start, 1, &setup)
}

fn take(alloc: Global, came: &mut Came, request: &Request) -> Result<(), NoMemory> {
    match request {
        Request::WriteOut { text } => came.out.push_bytes(text.as_bytes()),
        Request::WriteErr { text } => came.err.push_bytes(text.as_bytes()),
        Request::End { code } | Request::Exit { code } => {
            came.code = whole_text(alloc, code.rem_euclid(256))?;
            Ok(())
        }
        _ => Ok(()),
    }
}
