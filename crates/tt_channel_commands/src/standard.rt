//! The channels that belong to every thread, and those at their wrong end.
ghost use Rattle.std.specs.Prelude.{◌≡◌, IfOk};
ghost use Rattle.tt_channel_commands.specs.Channels as channels;

use std::alloc::Global;
use tt_command_tables::Call;
use tt_text::{NoMemory, Text};

/// A standard channel.
#[derive(Clone, Copy, Debug, PartialEq, Eq)]
pub(crate) enum Standard {
    /// `stdin`
    Input,
    /// `stdout`
    Output,
    /// `stderr`
    Errors,
}

/// The standard channel of this name.
pub(crate) fn standard_of(name: &[u8]) -> Option<Standard>
    ensures { result ≡ channels.standard_of name.now }
{
    if name == b"stdin".as_slice() {
        return Some(Standard::Input);
    }
    if name == b"stdout".as_slice() {
        return Some(Standard::Output);
    }
    if name == b"stderr".as_slice() {
        return Some(Standard::Errors);
    }
    None
}

/// That it is the end to read from.
pub(crate) fn not_for_writing(alloc: Global, name: &[u8]) -> Result<Call, NoMemory>
    ensures { IfOk result (λ call. call ≡ channels.not_for_writing name.now) }
{
    let call = wrong_end(alloc, name, b"\" wasn't opened for writing")?;
    Ok(call)
}

/// That it is the end to write to.
pub(crate) fn not_for_reading(alloc: Global, name: &[u8]) -> Result<Call, NoMemory>
    ensures { IfOk result (λ call. call ≡ channels.not_for_reading name.now) }
{
    let call = wrong_end(alloc, name, b"\" wasn't opened for reading")?;
    Ok(call)
}

fn wrong_end(alloc: Global, name: &[u8], text: &[u8]) -> Result<Call, NoMemory>
    ensures { IfOk result (λ call. call ≡ channels.wrong_end name.now text.now) }
{
    let mut message = Text::from_bytes(alloc, b"channel \"")?;
    message.push_bytes(name)?;
    message.push_bytes(text)?;
    Ok(Call::Bad(message))
}
