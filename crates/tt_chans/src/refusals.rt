ghost use Rattle.std.specs.Prelude.{◌≡◌, ◌++◌, codes, IfOk};
ghost use Rattle.tt_calls.specs.declared.reply.Reply.TheVariants.{Refused};
ghost use Rattle.tt_chans.specs.Calls.{id_of, id_message, no_channel, standard_message};
ghost use Rattle.tt_chans.specs.Ends.{of_channel};
ghost use Rattle.tt_chans.specs.Channels.{is_standard};

use std::alloc::Global;
use tt_calls::{ChanCall, Reply};
use tt_text::{NoMemory, Text};

const STDIN: &[u8] = b"stdin";

const STDOUT: &[u8] = b"stdout";

const STDERR: &[u8] = b"stderr";

// Whether a channel belongs to every thread.
pub(crate) fn is_standard(id: &[u8]) -> bool
    ensures { result ≡ is_standard id.now }
{
    id == STDIN || id == STDOUT || id == STDERR
}

// The id that a call names; the empty text if it names none.
pub(crate) fn id_of(call: &ChanCall) -> &[u8]
    ensures { result.now ≡ id_of call.now }
{
    match call {
        ChanCall::Pipe => b"",
        ChanCall::Put { chan, .. }
        | ChanCall::GetLine { chan }
        | ChanCall::Eof { chan }
        | ChanCall::Close { chan }
        | ChanCall::Detach { chan }
        | ChanCall::Attach { chan }
        | ChanCall::Transfer { chan, .. }
        | ChanCall::AwaitMove { chan } => chan.as_bytes(),
    }
}

// Why a call on a standard channel is refused.
pub(crate) fn refuse_standard(alloc: Global, call: &ChanCall) -> Result<Reply, NoMemory>
    ensures { IfOk result (λ reply. reply ≡ Refused (standard_message (id_of call.now) call.now)) }
{
    match call {
        ChanCall::Close { chan } => of_channel(alloc, chan, b"\" stays open"),
        ChanCall::Detach { chan } | ChanCall::Attach { chan } | ChanCall::Transfer { chan, .. } => {
            of_channel(alloc, chan, b"\" belongs to every thread")
        }
        _ => Ok(Reply::Refused(Text::new(alloc))),
    }
}

pub(crate) fn not_found(alloc: Global, id: &Text) -> Result<Reply, NoMemory>
    ensures { IfOk result (λ reply. reply ≡ Refused (no_channel id.now)) }
{
    named(alloc, b"can not find channel named \"", id, b"\"")
}

pub(crate) fn no_thread(alloc: Global, id: &Text) -> Result<Reply, NoMemory>
    ensures { IfOk result (λ reply.
        reply ≡ Refused (id_message (codes "thread \"") id.now (codes "\" does not exist"))) }
{
    named(alloc, b"thread \"", id, b"\" does not exist")
}

pub(crate) fn of_channel(alloc: Global, id: &Text, after: &[u8]) -> Result<Reply, NoMemory>
    ensures { IfOk result (λ reply. reply ≡ Refused (of_channel id.now after.now)) }
{
    named(alloc, b"channel \"", id, after)
}

fn named(alloc: Global, before: &[u8], id: &Text, after: &[u8]) -> Result<Reply, NoMemory>
    ensures { IfOk result (λ reply. reply ≡ Refused (id_message before.now id.now after.now)) }
{
    let mut text = Text::from_bytes(alloc, before)?;
    text.push_bytes(id.as_bytes())?;
    text.push_bytes(after)?;
    Ok(Reply::Refused(text))
}
