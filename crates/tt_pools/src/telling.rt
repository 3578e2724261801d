ghost use Rattle.std.specs.Prelude.{◌≡◌, ◌++◌, codes, IfOk};
ghost use Rattle.std.specs.List.{filter};
ghost use Rattle.tt_calls.specs.declared.reply.Reply.TheVariants.{Lists, Refused, Value};
ghost use Rattle.tt_lists.specs.Spelling.{list_of};
ghost use Rattle.tt_pools.specs.Calls.{look_reply, missing, no_outcome};
ghost use Rattle.tt_pools.specs.Jobs.{is_done, is_pending};

use crate::{Jobs, Pool};
use std::alloc::Global;
use tt_calls::Reply;
use tt_lists::join_list;
use tt_text::{NoMemory, Text, Texts};

pub(crate) fn refused(alloc: Global, message: &[u8]) -> Result<Reply, NoMemory>
    ensures { IfOk result (λ reply. reply ≡ Refused message.now) }
{
    let text = Text::from_bytes(alloc, message)?;
    Ok(Reply::Refused(text))
}

// The pool of this id isn't open.
pub(crate) fn missing(alloc: Global, id: &Text) -> Result<Reply, NoMemory>
    ensures { IfOk result (λ reply. reply ≡ Refused (missing id.now)) }
{
    named(alloc, b"can not find threadpool \"", id, b"\"")
}

// Why a job's outcome can't be reported.
pub(crate) fn no_outcome(alloc: Global, jobs: &Jobs, job: &Text) -> Result<Reply, NoMemory>
    ensures { IfOk result (λ reply. reply ≡ Refused (no_outcome job.now jobs.now)) }
{
    if jobs.is_pending(job) {
        return named(alloc, b"job \"", job, b"\" is not completed");
    }
    named(alloc, b"no such job \"", job, b"\"")
}

fn named(alloc: Global, before: &[u8], name: &Text, after: &[u8]) -> Result<Reply, NoMemory>
    ensures { IfOk result (λ reply. reply ≡ Refused (before.now ++ (name.now ++ after.now))) }
{
    let mut text = Text::from_bytes(alloc, before)?;
    text.push_bytes(name.as_bytes())?;
    text.push_bytes(after)?;
    Ok(Reply::Refused(text))
}

// The listed jobs that are done, and those that are pending.
pub(crate) fn looked(alloc: Global, jobs: &Jobs, listed: &[Text]) -> Result<Reply, NoMemory>
    ensures { IfOk result (λ reply. reply ≡ look_reply jobs.now listed.now) }
{
    let done = done_among(alloc, jobs, listed)?;
    let pending = pending_among(alloc, jobs, listed)?;
    let done = join_list(alloc, done.as_slice())?;
    let pending = join_list(alloc, pending.as_slice())?;
    Ok(Reply::Lists(done, pending))
}

fn done_among(alloc: Global, jobs: &Jobs, listed: &[Text]) -> Result<Texts, NoMemory>
    ensures { IfOk result (λ texts. texts ≡ filter (is_done jobs.now) listed.now) }
{
    let mut done = Texts::new(alloc);
    for job in listed {
        if jobs.is_done(job) {
            done.push(job.copy()?)?;
        }
    }
    Ok(done)
}

fn pending_among(alloc: Global, jobs: &Jobs, listed: &[Text]) -> Result<Texts, NoMemory>
    ensures { IfOk result (λ texts. texts ≡ filter (is_pending jobs.now) listed.now) }
{
    let mut pending = Texts::new(alloc);
    for job in listed {
        if jobs.is_pending(job) {
            pending.push(job.copy()?)?;
        }
    }
    Ok(pending)
}
