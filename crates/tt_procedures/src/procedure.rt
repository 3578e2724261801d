use std::alloc::Global;
use std::marker::Model;
use tt_text::{NoMemory, Text};

/// A parameter of a procedure, and its default (proc(n)).
#[derive(Debug, Drop)]
pub struct Parameter {
    pub name: Text,
    pub default: Option<Text>,
}

/// The parameters of a procedure, in order. Contracts see the list.
#[derive(Debug, Drop)]
pub struct Parameters {
    items: Vec<Parameter>,
}

impl Model for Parameters {
    ghost use Rattle.std.specs.Prelude.{List};
    ghost use Rattle.tt_procedures.specs.declared.procedure.Parameter.{Parameter as AnyParameter};

    ghost Value = { List AnyParameter };

    ghost view = { λ parameters. parameters.items.items };
}

impl Parameters {
    ghost use Rattle.std.specs.Prelude.{◌≡◌, ◌++◌, ◌∷◌, [], OnOk, OnErr};

    /// No parameters. It takes no memory.
    pub(crate) fn new(alloc: Global) -> Self
        ensures empty { result ≡ [] }
    {
        Parameters {
            items: Vec::new(alloc),
        }
    }

    /// The parameters, from the first to the last.
    pub fn as_slice(&self) -> &[Parameter]
        ensures items { result.now ≡ self.now }
    {
        self.items.as_slice()
    }

    /// Adds one at the end.
    ///
    /// `NoMemory` if memory for it is refused; then the list is as it was.
    pub(crate) fn push(&mut self, parameter: Parameter) -> Result<(), NoMemory>
        ensures pushed { OnOk result (self.new ≡ self.old ++ parameter ∷ []) }
        ensures unchanged { OnErr result (self.new ≡ self.old) }
    {
        self.items.push(parameter)?;
        Ok(())
    }
}

/// A procedure (proc(n)).
#[derive(Debug, Drop)]
pub struct Procedure {
    pub parameters: Parameters,
    /// What a call of it evaluates.
    pub body: Text,
}
