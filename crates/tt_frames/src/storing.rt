//! Variables that commands set.
ghost use Rattle.tt_frames.specs.declared.state.Counts.{Counts};
ghost use Rattle.tt_outcomes.specs.declared.want.Want.TheVariants as wants;
ghost use Rattle.std.specs.Prelude.{◌≡◌, IfOk, codes, None};
ghost use Rattle.tt_frames.specs.Frames.{after, on_got};
ghost use Rattle.tt_frames.specs.Vocabulary.{setting, variable_result, with_error_info};
ghost use Rattle.tt_evaluation.specs.Frames.{plan_of};

use crate::job::{Asking, Frame};
use crate::language::Next;
use std::alloc::Global;
use tt_outcomes::{Ending, Want};
use tt_script::split_name;
use tt_text::{NoMemory, Text};
use tt_value::Value;

/// What sets a variable or an element, by a name as commands are given it (set(n)).
pub(crate) fn setting(alloc: Global, name: Text, value: Value) -> Result<Want, NoMemory>
    ensures { IfOk result (λ want. want ≡ setting name value) }
{
    match split_name(name.as_bytes()) {
        None => Ok(Want::WriteVar {
            name,
            index: None,
            value,
        }),
        Some((array, index)) => Ok(Want::WriteVar {
            name: Text::from_bytes(alloc, array)?,
            index: Some(Text::from_bytes(alloc, index)?),
            value,
        }),
    }
}

/// A variable is set, if there is one, and then that is the result.
pub(crate) fn store(
    alloc: Global,
    variable: Option<Text>,
    value: Value,
    answer: Value,
) -> Result<Next, NoMemory>
    ensures { IfOk result (λ move. (state : Counts)
        → variable_result variable value answer state ≡ plan_of after on_got move state) }
{
    match variable {
        None => Ok(Next::Done(Ending::Fine(answer))),
        Some(name) => {
            let want = setting(alloc, name, value)?;
            Ok(Next::Ask(want, Asking::Wanted(Frame::Stores(answer))))
        }
    }
}

/// What sets `errorInfo` to a trace (tclvars(n)).
pub(crate) fn telling(alloc: Global, trace: Text) -> Result<Want, NoMemory>
    ensures { IfOk result (λ want. want ≡ wants.WriteVar (codes "::errorInfo") None trace) }
{
    Ok(Want::WriteVar {
        name: Text::from_bytes(alloc, b"::errorInfo")?,
        index: None,
        value: Value::from_text(trace),
    })
}
