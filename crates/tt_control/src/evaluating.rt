//! Commands that evaluate one of their words as it stands.
ghost use Rattle.std.specs.Prelude.{◌≡◌, ◌++◌, IfOk, OnOk, codes};
ghost use Rattle.std.specs.List.{flat_map};
ghost use Rattle.tt_control.specs.Refusals.{wrong_number};
ghost use Rattle.tt_control.specs.Evaluating as evaluating;

use crate::Control;
use crate::refusals::wrong_number;
use std::alloc::Global;
use tt_text::{NoMemory, Text};

pub(crate) fn catch(alloc: Global, usage: &[u8], words: &[Text]) -> Result<Control, NoMemory>
    ensures { IfOk result (λ control. control ≡ evaluating.catch (wrong_number usage.now) words.now) }
{
    match words {
        [script] => Ok(Control::Catch {
            script: script.copy()?,
            variable: None,
        }),
        [script, variable] => Ok(Control::Catch {
            script: script.copy()?,
            variable: Some(variable.copy()?),
        }),
        _ => wrong_number(alloc, usage),
    }
}

pub(crate) fn expression(alloc: Global, usage: &[u8], words: &[Text]) -> Result<Control, NoMemory>
    ensures { IfOk result (λ control. control ≡ evaluating.expression (wrong_number usage.now) words.now) }
{
    let [first, later @ ..] = words else {
        return wrong_number(alloc, usage);
    };
    let mut text = first.copy()?;
    push_spaced(&mut text, later)?;
    Ok(Control::Expr(text))
}

fn push_spaced(all: &mut Text, words: &[Text]) -> Result<(), NoMemory>
    ensures { OnOk result (all.new ≡ all.old ++ flat_map (λ word. codes " " ++ word) words.now) }
{
    for word in words {
        all.push_bytes(b" ")?;
        all.push_bytes(word.as_bytes())?;
    }
    Ok(())
}

pub(crate) fn while_loop(alloc: Global, usage: &[u8], words: &[Text]) -> Result<Control, NoMemory>
    ensures { IfOk result (λ control. control ≡ evaluating.while_loop (wrong_number usage.now) words.now) }
{
    match words {
        [test, body] => Ok(Control::While {
            test: test.copy()?,
            body: body.copy()?,
        }),
        _ => wrong_number(alloc, usage),
    }
}

pub(crate) fn for_loop(alloc: Global, usage: &[u8], words: &[Text]) -> Result<Control, NoMemory>
    ensures { IfOk result (λ control. control ≡ evaluating.for_loop (wrong_number usage.now) words.now) }
{
    match words {
        [start, test, next, body] => Ok(Control::For {
            start: start.copy()?,
            test: test.copy()?,
            next: next.copy()?,
            body: body.copy()?,
        }),
        _ => wrong_number(alloc, usage),
    }
}
