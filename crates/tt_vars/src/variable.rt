ghost use Rattle.std.specs.Prelude.{◌≡◌, ℕ, List, Some, None, Ok, IfOk, IsFalse, IsTrue, OnErr};
ghost use Rattle.tt_vars.specs.declared.variable.Variable.TheVariants.{Scalar};
ghost use Rattle.tt_vars.specs.Variables.{leads, variable_after_write, Puts};
ghost use Rattle.tt_vars.specs.inside.Found.{after_change, put_in, text_in, without_at};
ghost use Rattle.std.specs.Option.{option_copied, option_map};

use crate::elements::Elements;
use crate::reading::Reading;
use crate::{VarFault, Written};
use std::alloc::Global;
use std::mem::swap;
use tt_text::{NoMemory, Text};
use tt_value::{Changing, Made, Value};

/// Where a name or a link leads: a variable of a frame, or one of its elements.
#[derive(Debug, Drop)]
pub(crate) struct Place {
    pub(crate) frame: u64,
    pub(crate) name: Text,
    pub(crate) index: Option<Text>,
}

/// Which variable of a frame, counted from 0, and the index of its element.
#[derive(Debug, Drop)]
pub(crate) struct Found {
    pub(crate) variable: usize,
    pub(crate) element: Option<Text>,
}

/// What a name is in its frame (Tcl(n), upvar(n)).
#[derive(Debug, Drop)]
pub(crate) enum Variable {
    Scalar(Value),
    Array(Elements),
    /// None if the other name was that of an element of an element, which stands for nothing.
    Link(Option<Place>),
}

/// What a missing name is once a value was written to it, or to an element.
///
/// `NoMemory` if memory for it is refused.
pub(crate) fn first_written(
    alloc: Global,
    index: Option<Text>,
    value: Value,
) -> Result<Variable, NoMemory>
    ensures made { IfOk result (λ variable. variable_after_write None index value ≡ Ok variable) }
    ensures link { IfOk result (λ variable. leads (Some variable) ≡ None) }
{
    match index {
        None => Ok(Variable::Scalar(value)),
        Some(index) => {
            let elements = Elements::one(alloc, index, value)?;
            Ok(Variable::Array(elements))
        }
    }
}

/// Writes a value to a variable that is there, or to an element.
///
/// `NoMemory` if memory for it is refused; then the variable is as it was.
pub(crate) fn write_to(
    variable: &mut Variable,
    index: Option<Text>,
    value: Value,
) -> Result<Written, NoMemory>
    ensures written { IfOk result (λ answer.
        Puts (variable_after_write (Some variable.old) index value) variable.old variable.new answer) }
    ensures unchanged { OnErr result (variable.new ≡ variable.old) }
    ensures link { leads (Some variable.new) ≡ leads (Some variable.old) }
{
    match (variable, index) {
        (Variable::Scalar(scalar), None) => *scalar = value,
        (Variable::Array(elements), Some(index)) => elements.put(index, value)?,
        (Variable::Array(_), None) => return Ok(Written::No(VarFault::IsArray)),
        (Variable::Scalar(_) | Variable::Link(_), _) => {
            return Ok(Written::No(VarFault::NotArray));
        }
    }
    Ok(Written::Yes)
}

/// Exchanges the value of a scalar; false if the variable is none, and then nothing has changed.
pub(crate) fn exchange(variable: &mut Variable, value: &mut Value) -> bool
    ensures scalar { IsTrue result → (old : List ℕ) × (variable.old ≡ Scalar old) }
    ensures written { IsTrue result → variable.new ≡ Scalar value.old }
    ensures unchanged { IsFalse result → variable.new ≡ variable.old }
    ensures kept { IsFalse result → value.new ≡ value.old }
    ensures link { leads (Some variable.new) ≡ leads (Some variable.old) }
{
    match variable {
        Variable::Scalar(scalar) => {
            swap(scalar, value);
            true
        }
        _ => false,
    }
}

/// Removes an element of an array.
pub(crate) fn remove_from(variable: &mut Variable, element: &Text)
    ensures removed { variable.new ≡ without_at variable.old element.now }
{
    if let Variable::Array(elements) = variable {
        elements.remove(element);
    }
}

/// What a scalar, or an element, is read as; None if there is no such value.
///
/// `NoMemory` if memory is refused.
pub(crate) fn read_in<R: Reading>(
    alloc: Global,
    variable: &mut Variable,
    element: Option<&Text>,
    reading: &R,
) -> Result<Option<R::Answer>, NoMemory>
    ensures answer { IfOk result (λ answer.
        answer ≡ option_map (R.meaning reading.now) (text_in (Some variable.old) (option_copied element.entry))) }
    ensures same { variable.new ≡ variable.old }
{
    match (variable, element) {
        (Variable::Scalar(value), None) => {
            let answer = reading.read(alloc, value)?;
            Ok(Some(answer))
        }
        (Variable::Array(elements), Some(element)) => elements.read_as(element, reading),
        _ => Ok(None),
    }
}

/// Changes a scalar, or an element; None if there is no such value.
///
/// `NoMemory` if memory is refused; then nothing is said of the value.
pub(crate) fn change_in<C: Changing>(
    alloc: Global,
    variable: &mut Variable,
    element: Option<&Text>,
    changing: &C,
) -> Result<Option<Made>, NoMemory>
    ensures answer { IfOk result (λ answer.
        answer ≡ option_map (C.meaning changing.now) (text_in (Some variable.old) (option_copied element.entry))) }
    ensures changed { IfOk result (λ answer.
        variable.new ≡ after_change (put_in variable.old (option_copied element.entry)) variable.old answer) }
    ensures link { leads (Some variable.new) ≡ leads (Some variable.old) }
{
    match (variable, element) {
        (Variable::Scalar(value), None) => {
            let answer = changing.change(alloc, value)?;
            Ok(Some(answer))
        }
        (Variable::Array(elements), Some(element)) => elements.change(element, changing),
        _ => Ok(None),
    }
}
