ghost use Rattle.std.specs.Prelude.{◌≡◌, IfOk};
ghost use Rattle.tt_control.specs.Refusals.{wrong_number};
ghost use Rattle.tt_control.specs.Table as table;

use crate::Control;
use crate::branches::branch;
use crate::choices::switch;
use crate::command::{Command, command_of, usage};
use crate::dictionaries::dict;
use crate::endings::{break_loop, continue_loop, error, return_value};
use crate::evaluating::{catch, expression, for_loop, while_loop};
use crate::turns::foreach;
use std::alloc::Global;
use tt_script::plain_name;
use tt_text::NoMemory;
use tt_value::{Value, texts_of};

/// What the words of a command mean, its name first. A leading `::` of the name is dropped.
///
/// `Other` comes exactly if the first word is no command of the table, or is `dict` without `for` after it, or there is
/// no word. Errors come in this order: an option that isn't known, from the left; a wrong number of words; what the
/// words say. `NoMemory` if memory is refused.
pub fn read_control(alloc: Global, words: &[Value]) -> Result<Control, NoMemory>
    ensures control { IfOk result (λ control. control ≡ table.control_of words.now) }
{
    match words {
        [name, words @ ..] => {
            let name = name.to_text(alloc)?;
            by_command(alloc, command_of(plain_name(name.as_bytes())), words)
        }
        [] => Ok(Control::Other),
    }
}

fn by_command(alloc: Global, command: Option<Command>, words: &[Value]) -> Result<Control, NoMemory>
    ensures { IfOk result (λ control. control ≡ table.by_command command words.now) }
{
    match command {
        Some(command) => meaning(alloc, command, usage(command), words),
        None => Ok(Control::Other),
    }
}

fn meaning(
    alloc: Global,
    command: Command,
    usage: &[u8],
    words: &[Value],
) -> Result<Control, NoMemory>
    ensures { IfOk result (λ control. control ≡ (table.row_of command).meaning (wrong_number usage.now) words.now) }
{
    match command {
        Command::Break => break_loop(alloc, usage, texts_of(alloc, words)?.as_slice()),
        Command::Catch => catch(alloc, usage, texts_of(alloc, words)?.as_slice()),
        Command::Continue => continue_loop(alloc, usage, texts_of(alloc, words)?.as_slice()),
        Command::Dict => dict(alloc, usage, texts_of(alloc, words)?.as_slice()),
        Command::Error => error(alloc, usage, texts_of(alloc, words)?.as_slice()),
        Command::Expr => expression(alloc, usage, texts_of(alloc, words)?.as_slice()),
        Command::For => for_loop(alloc, usage, texts_of(alloc, words)?.as_slice()),
        Command::Foreach => foreach(alloc, usage, words),
        Command::If => branch(alloc, usage, texts_of(alloc, words)?.as_slice()),
        Command::Return => return_value(alloc, usage, words),
        Command::Switch => switch(alloc, usage, texts_of(alloc, words)?.as_slice()),
        Command::While => while_loop(alloc, usage, texts_of(alloc, words)?.as_slice()),
    }
}
