//! Parameters are read.
ghost use Rattle.std.specs.Prelude.{◌≡◌, [], IfOk};
ghost use Rattle.tt_procedures.specs.Parameters as parameters;

use crate::messages::bad_parameter;
use crate::procedure::{Parameter, Parameters};
use std::alloc::Global;
use tt_lists::{Split, split};
use tt_script::{global_name, split_name};
use tt_text::{NoMemory, Text};

/// The parameters of a list, or the message why it is none.
pub(crate) fn parameters_of(
    alloc: Global,
    list: &[u8],
) -> Result<Result<Parameters, Text>, NoMemory>
    ensures { IfOk result (λ read. read ≡ parameters.parameters_of list.now) }
{
    match split(alloc, list)? {
        Split::Items(texts) => read(alloc, texts.as_slice()),
        Split::Bad(fault) => Ok(Err(fault.message(alloc)?)),
    }
}

fn read(alloc: Global, texts: &[Text]) -> Result<Result<Parameters, Text>, NoMemory>
    ensures { IfOk result (λ read. read ≡ parameters.parameters_from [] texts.now) }
{
    let mut parameters = Parameters::new(alloc);
    for text in texts {
        match parameter_of(alloc, text.as_bytes())? {
            Some(parameter) => parameters.push(parameter)?,
            None => return Ok(Err(bad_parameter(alloc, text.as_bytes())?)),
        }
    }
    Ok(Ok(parameters))
}

fn parameter_of(alloc: Global, text: &[u8]) -> Result<Option<Parameter>, NoMemory>
    ensures { IfOk result (λ parameter. parameter ≡ parameters.parameter_of text.now) }
{
    match split(alloc, text)? {
        Split::Items(items) => parameter_in(items.as_slice()),
        Split::Bad(_) => Ok(None),
    }
}

fn parameter_in(items: &[Text]) -> Result<Option<Parameter>, NoMemory>
    ensures { IfOk result (λ parameter. parameter ≡ parameters.parameter_in items.now) }
{
    match items {
        [name] => named(name, None),
        [name, default] => {
            let default = default.copy()?;
            named(name, Some(default))
        }
        _ => Ok(None),
    }
}

fn named(name: &Text, default: Option<Text>) -> Result<Option<Parameter>, NoMemory>
    ensures { IfOk result (λ parameter. parameter ≡ parameters.parameter_named name.now default) }
{
    if !is_good(name.as_bytes()) {
        return Ok(None);
    }
    let name = name.copy()?;
    Ok(Some(Parameter { name, default }))
}

fn is_good(name: &[u8]) -> bool
    ensures { result ≡ parameters.is_good name.now }
{
    !name.is_empty() && split_name(name).is_none() && global_name(name).is_none()
}
