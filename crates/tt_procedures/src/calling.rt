//! The call of a procedure: the values of its parameters, and its usage.
ghost use Rattle.std.specs.Prelude.{◌≡◌, ◌++◌, IfOk, OnOk};
ghost use Rattle.std.specs.Option.{option_map};
ghost use Rattle.tt_procedures.specs.Calling as calling;

use crate::procedure::{Parameter, Procedure};
use std::alloc::Global;
use std::marker::Model;
use tt_calls::Outcome;
use tt_text::{NoMemory, Text};
use tt_value::{Value, texts_of};

/// The value that a call gives to a parameter (proc(n)).
#[derive(Debug, Drop)]
pub struct Argument {
    /// The parameter's name.
    pub name: Text,
    pub value: Value,
}

/// The values of parameters, in their order. Contracts see the list.
#[derive(Debug, Drop)]
pub struct Arguments {
    items: Vec<Argument>,
}

impl Model for Arguments {
    ghost use Rattle.std.specs.Prelude.{List};
    ghost use Rattle.tt_procedures.specs.declared.calling.Argument.{Argument as AnyArgument};

    ghost Value = { List AnyArgument };

    ghost view = { λ arguments. arguments.items.items };
}

impl Arguments {
    ghost use Rattle.std.specs.Prelude.{◌≡◌, ◌++◌, ◌∷◌, [], OnOk, OnErr};

    fn new(alloc: Global) -> Self
        ensures empty { result ≡ [] }
    {
        Arguments {
            items: Vec::new(alloc),
        }
    }

    /// The values, from that of the first parameter to that of the last.
    pub fn as_slice(&self) -> &[Argument]
        ensures items { result.now ≡ self.now }
    {
        self.items.as_slice()
    }

    /// The values as a vector. None is copied.
    pub fn into_vec(self) -> Vec<Argument>
        ensures items { result.items ≡ self }
    {
        let Arguments { items } = self;
        items
    }

    fn push(&mut self, argument: Argument) -> Result<(), NoMemory>
        ensures pushed { OnOk result (self.new ≡ self.old ++ argument ∷ []) }
        ensures unchanged { OnErr result (self.new ≡ self.old) }
    {
        self.items.push(argument)?;
        Ok(())
    }
}

/// What the call of a procedure comes to (proc(n)).
#[derive(Debug, Drop)]
pub enum Called {
    /// Its body is to be evaluated, with these values of its parameters.
    Body { arguments: Arguments, body: Text },
    /// The words don't fit its parameters: the error with its usage.
    Wrong(Outcome),
}

/// What the call of a procedure by this word with these words after it comes to.
pub(crate) fn call_of(
    alloc: Global,
    word: &Text,
    words: &[Value],
    procedure: &Procedure,
) -> Result<Called, NoMemory>
    ensures { IfOk result (λ called. called ≡ calling.call_of word.now words.now procedure.now) }
{
    match arguments_of(alloc, procedure.parameters.as_slice(), words)? {
        Some(arguments) => {
            let body = procedure.body.copy()?;
            Ok(Called::Body { arguments, body })
        }
        None => {
            let usage = usage(word, procedure.parameters.as_slice())?;
            let wrong = Outcome::wrong_number(alloc, usage.as_bytes())?;
            Ok(Called::Wrong(wrong))
        }
    }
}

fn arguments_of(
    alloc: Global,
    parameters: &[Parameter],
    words: &[Value],
) -> Result<Option<Arguments>, NoMemory>
    ensures { IfOk result (λ arguments. arguments ≡ calling.arguments_of parameters.now words.now) }
{
    let mut arguments = Arguments::new(alloc);
    let mut left = words;
    let mut rest = parameters;
    while let [parameter, later @ ..] = rest {
        let takes_all = takes_rest(parameter, later);
        let Some(value) = first_value(alloc, takes_all, parameter, left)? else {
            return Ok(None);
        };
        let name = parameter.name.copy()?;
        arguments.push(Argument { name, value })?;
        left = words_after(takes_all, left);
        rest = later;
    }
    Ok(if left.is_empty() {
        Some(arguments)
    } else {
        None
    })
}

fn takes_rest(parameter: &Parameter, later: &[Parameter]) -> bool
    ensures { result ≡ calling.takes_rest parameter.now later.now }
{
    later.is_empty() && parameter.name.as_bytes() == b"args".as_slice()
}

fn first_value(
    alloc: Global,
    takes_rest: bool,
    parameter: &Parameter,
    words: &[Value],
) -> Result<Option<Value>, NoMemory>
    ensures { IfOk result (λ value. value ≡ calling.first_value takes_rest parameter.now words.now) }
{
    if takes_rest {
        let texts = texts_of(alloc, words)?;
        return Ok(Some(Value::from_items(texts.into_vec())?));
    }
    match (words, &parameter.default) {
        ([word, ..], _) => Ok(Some(word.copy()?)),
        ([], Some(default)) => Ok(Some(Value::from_text(default.copy()?))),
        ([], None) => Ok(None),
    }
}

fn words_after(takes_rest: bool, words: &[Value]) -> &[Value]
    ensures { result.now ≡ calling.words_after takes_rest words.now }
{
    match words {
        [_, later @ ..] if !takes_rest => later,
        _ => &words[words.len()..],
    }
}

fn usage(word: &Text, parameters: &[Parameter]) -> Result<Text, NoMemory>
    ensures { IfOk result (λ usage. usage ≡ calling.usage word.now parameters.now) }
{
    let mut text = word.copy()?;
    let mut rest = parameters;
    while let [parameter, later @ ..] = rest {
        text.push_bytes(b" ")?;
        push_usage_part(&mut text, parameter, takes_rest(parameter, later))?;
        rest = later;
    }
    Ok(text)
}

fn push_usage_part(text: &mut Text, parameter: &Parameter, takes_rest: bool) -> Result<(), NoMemory>
    ensures { OnOk result
        (text.new ≡ text.old ++ calling.usage_part_by takes_rest parameter.now.name parameter.now.default) }
{
    if takes_rest {
        return text.push_bytes(b"?arg ...?");
    }
    match &parameter.default {
        None => text.push_bytes(parameter.name.as_bytes()),
        Some(_) => push_optional(text, &parameter.name),
    }
}

fn push_optional(text: &mut Text, name: &Text) -> Result<(), NoMemory>
    ensures { OnOk result (text.new ≡ text.old ++ calling.optional name.now) }
{
    text.push_bytes(b"?")?;
    text.push_bytes(name.as_bytes())?;
    text.push_bytes(b"?")?;
    Ok(())
}
