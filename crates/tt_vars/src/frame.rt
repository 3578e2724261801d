ghost use Rattle.std.specs.Prelude.{◌≡◌, ℕ, List, [], Some, Ok, Err, cond, length, slice_get, remove, bytes_eq, IfOk};
ghost use Rattle.std.specs.Prelude.{IfErr, IfNone, IfSome, IsFalse, IsTrue, OnOk, OnErr};
ghost use Rattle.std.specs.Map.{keys_of, values_of};
ghost use Rattle.std.specs.Option.{option_copied, option_map, ok_or};
ghost use Rattle.tt_vars.specs.declared.answers.VarFault.TheVariants.{IsArray};
ghost use Rattle.tt_vars.specs.declared.variable.Variable.TheVariants.{Link, Scalar};
ghost use Rattle.tt_vars.specs.Variables.{Name, variable_named, is_set, leads, elements_of, reading_of};
ghost use Rattle.tt_vars.specs.Variables.{variable_after_write, with, frame_after_removal};
ghost use Rattle.tt_vars.specs.Variables.{result_of, Puts};
ghost use Rattle.tt_vars.specs.inside.Found.{after_change, has_element, put_at, put_by, removed_at, removed_in};
ghost use Rattle.tt_vars.specs.inside.Found.{text_at, text_in};
ghost use Rattle.tt_vars.specs.inside.Ending.{KeepsLinks};

use crate::links::owned_index;
use crate::reading::Reading;
use crate::variable::{
    Found, Place, Variable, change_in, exchange, first_written, read_in, remove_from, write_to,
};
use crate::{VarFault, Written};
use std::alloc::Global;
use std::marker::Model;
use tt_names::Names;
use tt_text::{NoMemory, Text, Texts};
use tt_value::{Changing, Made, Value};

/// The variables of a procedure, or the global ones, in order of insertion. Contracts see the list of pairs of a
/// name and what it is.
#[derive(Debug, Drop)]
pub(crate) struct Frame {
    names: Names<Variable>,
}

impl Model for Frame {
    ghost use Rattle.std.specs.Prelude.{ℕ, List};
    ghost use Rattle.tt_vars.specs.declared.variable.Variable.{Variable as AnyVariable};

    ghost Value = { List (List ℕ × AnyVariable) };

    ghost view = { λ frame. frame.names };
}

impl Frame {
    /// No variables. It takes no memory.
    pub(crate) fn new(alloc: Global) -> Self
        ensures empty { result ≡ [] }
    {
        Frame {
            names: Names::new(alloc),
        }
    }

    /// The frame with no variables. The room of few names stays.
    pub(crate) fn emptied(mut self) -> Self
        ensures empty { result ≡ [] }
    {
        self.names.clear();
        self
    }

    /// Where a link leads; None where the name is no link. The name is looked for at the hint first, and the hint is
    /// then the place of the name, if there is one.
    pub(crate) fn link(&self, name: &Text, hint: &mut usize) -> Option<&Option<Place>>
        ensures link { option_copied result ≡ leads (variable_named self.now name.now) }
    {
        let (place, variable) = self.names.find_near(name, *hint)?;
        *hint = place;
        match variable {
            Variable::Link(to) => Some(to),
            Variable::Scalar(_) | Variable::Array(_) => None,
        }
    }

    /// The value of a name, or of its element; `missing` is the fault if there is no such name. The name is looked for
    /// at the hint first.
    pub(crate) fn read(
        &self,
        name: &Text,
        hint: usize,
        index: Option<&Text>,
        missing: VarFault,
    ) -> Result<&Value, VarFault>
        ensures value { IfOk result (λ value.
            reading_of missing (variable_named self.now name.now) (option_copied index.entry) ≡ Ok value.now) }
        ensures fault { IfErr result (λ fault.
            reading_of missing (variable_named self.now name.now) (option_copied index.entry) ≡ Err fault) }
    {
        match (self.names.get_near(name, hint).ok_or(missing)?, index) {
            (Variable::Scalar(value), None) => Ok(value),
            (Variable::Array(elements), Some(index)) => {
                elements.get(index).ok_or(VarFault::NoSuchElement)
            }
            (Variable::Array(_), None) => Err(VarFault::IsArray),
            (Variable::Scalar(_) | Variable::Link(_), _) => Err(VarFault::NotArray),
        }
    }

    /// The value of a name that is a scalar, or of an element of one that is an array; None if there is none, and if the
    /// name is a link.
    pub(crate) fn value(&self, name: &Text, index: Option<&Text>) -> Option<&Value>
        ensures link { IfSome result (λ value. leads (variable_named self.now name.now) ≡ None) }
        ensures value { IfSome result (λ value. (missing : VarFault) →
            reading_of missing (variable_named self.now name.now) (option_copied index.entry) ≡ Ok value.now) }
    {
        match (self.names.get(name)?, index) {
            (Variable::Scalar(value), None) => Some(value),
            (Variable::Array(elements), Some(index)) => elements.get(index),
            _ => None,
        }
    }

    /// Exchanges the value of a name that is a scalar; false if it is none, and then nothing has changed.
    pub(crate) fn exchange(&mut self, name: &Text, value: &mut Value) -> bool
        ensures scalar { IsTrue result → (old : List ℕ) × (variable_named self.old name.now ≡ Some (Scalar old)) }
        ensures written { IsTrue result → self.new ≡ with self.old name.now (Scalar value.old) }
        ensures unchanged { IsFalse result → self.new ≡ self.old }
        ensures kept { IsFalse result → value.new ≡ value.old }
        ensures links { KeepsLinks self.old self.new }
    {
        if let Some(variable) = self.names.get_mut(name) {
            return exchange(variable, value);
        }
        false
    }

    /// Changes the value of a name that is a scalar; None if it is none, and then nothing has changed.
    ///
    /// `NoMemory` if memory is refused; then nothing is said of the value.
    pub(crate) fn change<C: Changing>(
        &mut self,
        name: &Text,
        changing: &C,
    ) -> Result<Option<Made>, NoMemory>
        ensures scalar { IfOk result (λ answer. IfSome answer (λ made.
            (old : List ℕ)
            × (variable_named self.old name.now ≡ Some (Scalar old))
            × (made ≡ C.meaning changing.now old)
            × (self.new ≡ after_change (λ text. with self.old name.now (Scalar text)) self.old (Some made)))) }
        ensures none { IfOk result (λ answer. IfNone answer (self.new ≡ self.old)) }
        ensures links { KeepsLinks self.old self.new }
    {
        let alloc = self.names.alloc();
        if let Some(variable) = self.names.get_mut(name) {
            return change_in(alloc, variable, None, changing);
        }
        Ok(None)
    }

    /// Writes a value to a name, or to its element. A new name goes last. The name is looked for at the hint first.
    ///
    /// `NoMemory` if memory for it is refused; then the frame is as it was.
    pub(crate) fn write(
        &mut self,
        name: Text,
        hint: usize,
        index: Option<Text>,
        value: Value,
    ) -> Result<Written, NoMemory>
        ensures written { IfOk result (λ answer.
            Puts (result_of (with self.old name)
            (variable_after_write (variable_named self.old name) index value)) self.old self.new
            answer) }
        ensures unchanged { OnErr result (self.new ≡ self.old) }
        ensures links { KeepsLinks self.old self.new }
    {
        if let Some(variable) = self.names.get_mut_near(&name, hint) {
            return write_to(variable, index, value);
        }
        let variable = first_written(self.names.alloc(), index, value)?;
        self.names.insert(name, variable)?;
        Ok(Written::Yes)
    }

    /// Makes a name a link. A new name goes last.
    ///
    /// `NoMemory` if memory for it is refused; then the frame is as it was.
    pub(crate) fn put_link(&mut self, name: Text, to: Option<Place>) -> Result<(), NoMemory>
        ensures put { OnOk result (self.new ≡ with self.old name (Link to)) }
        ensures named { OnOk result ((other : Name) →
            variable_named self.new other
            ≡ cond (bytes_eq name other) (Some (Link to)) (variable_named self.old other)) }
        ensures unchanged { OnErr result (self.new ≡ self.old) }
    {
        self.names.insert(name, Variable::Link(to))?;
        Ok(())
    }

    /// Finds what is read, written where it stands, or removed by a name; `missing` is the fault where there is no such
    /// name. The name is looked for at the hint first.
    ///
    /// `NoMemory` if there are too many copies of the index.
    pub(crate) fn find(
        &self,
        name: &Text,
        hint: usize,
        index: Option<&Text>,
        missing: VarFault,
    ) -> Result<Result<Found, VarFault>, NoMemory>
        ensures removed { IfOk result (λ answer. IfOk answer (λ found.
            frame_after_removal missing self.now name.now (variable_named self.now name.now) (option_copied index.entry)
            ≡ Ok (removed_at self.now found))) }
        ensures text { IfOk result (λ answer. IfOk answer (λ found.
            reading_of missing (variable_named self.now name.now) (option_copied index.entry)
            ≡ ok_or (text_at self.now found) IsArray)) }
        ensures written { IfOk result (λ answer. IfOk answer (λ found.
            (old text : List ℕ) → text_at self.now found ≡ Some old →
            result_of (with self.now name.now)
            (variable_after_write (variable_named self.now name.now) (option_copied index.entry) text)
            ≡ Ok (put_at self.now found text))) }
        ensures fault { IfOk result (λ answer. IfErr answer (λ fault.
            frame_after_removal missing self.now name.now (variable_named self.now name.now)
            (option_copied index.entry) ≡ Err fault)) }
        ensures no_text { IfOk result (λ answer. IfErr answer (λ fault.
            reading_of missing (variable_named self.now name.now) (option_copied index.entry) ≡ Err fault)) }
    {
        let variable = match self.place(name, hint, index, missing) {
            Ok(variable) => variable,
            Err(fault) => return Ok(Err(fault)),
        };
        let element = owned_index(index)?;
        Ok(Ok(Found { variable, element }))
    }

    // Which variable it is.
    fn place(
        &self,
        name: &Text,
        hint: usize,
        index: Option<&Text>,
        missing: VarFault,
    ) -> Result<usize, VarFault>
        ensures removed { IfOk result (λ place.
            frame_after_removal missing self.now name.now (variable_named self.now name.now) (option_copied index.entry)
            ≡ Ok (removed_in self.now place (slice_get (values_of self.now) place) (option_copied index.entry))) }
        ensures text { IfOk result (λ place.
            reading_of missing (variable_named self.now name.now) (option_copied index.entry)
            ≡ ok_or (text_in (slice_get (values_of self.now) place) (option_copied index.entry)) IsArray) }
        ensures written { IfOk result (λ place. (old text : List ℕ) →
            text_in (slice_get (values_of self.now) place) (option_copied index.entry) ≡ Some old →
            result_of (with self.now name.now)
            (variable_after_write (variable_named self.now name.now) (option_copied index.entry) text)
            ≡ Ok (put_by self.now place (slice_get (values_of self.now) place) (option_copied index.entry) text)) }
        ensures fault { IfErr result (λ fault.
            frame_after_removal missing self.now name.now (variable_named self.now name.now)
            (option_copied index.entry) ≡ Err fault) }
        ensures no_text { IfErr result (λ fault.
            reading_of missing (variable_named self.now name.now) (option_copied index.entry) ≡ Err fault) }
    {
        let (place, named) = self.names.find_near(name, hint).ok_or(missing)?;
        has_element(named, index)?;
        Ok(place)
    }

    /// Removes what was found. The names after it move up.
    pub(crate) fn remove_at(&mut self, found: &Found)
        ensures removed { self.new ≡ removed_at self.old found.now }
        ensures links { KeepsLinks self.old self.new }
    {
        match &found.element {
            None => self.remove_variable(found.variable),
            Some(element) => self.remove_element(found.variable, element),
        }
    }

    // Removes the variable at a place.
    fn remove_variable(&mut self, place: usize)
        ensures removed { self.new ≡ remove self.old place }
        ensures links { KeepsLinks self.old self.new }
    {
        self.names.remove_at(place);
    }

    // Removes an element of the array at a place.
    fn remove_element(&mut self, place: usize, element: &Text)
        ensures removed { self.new
            ≡ removed_in self.old place (slice_get (values_of self.old) place) (Some element.now) }
        ensures links { KeepsLinks self.old self.new }
    {
        if let Some(variable) = self.names.at_mut(place) {
            remove_from(variable, element);
        }
    }

    /// What the value that was found is read as; None if it is an array.
    ///
    /// `NoMemory` if memory is refused.
    pub(crate) fn read_at<R: Reading>(
        &mut self,
        found: &Found,
        reading: &R,
    ) -> Result<Option<R::Answer>, NoMemory>
        ensures answer { IfOk result (λ answer.
            answer ≡ option_map (R.meaning reading.now) (text_at self.old found.now)) }
        ensures same { self.new ≡ self.old }
    {
        let alloc = self.names.alloc();
        let Some(variable) = self.names.at_mut(found.variable) else {
            return Ok(None);
        };
        read_in(alloc, variable, found.element.as_ref(), reading)
    }

    /// Changes the value that was found; None if it is an array.
    ///
    /// `NoMemory` if memory is refused; then nothing is said of the value.
    pub(crate) fn change_at<C: Changing>(
        &mut self,
        found: &Found,
        changing: &C,
    ) -> Result<Option<Made>, NoMemory>
        ensures answer { IfOk result (λ answer.
            answer ≡ option_map (C.meaning changing.now) (text_at self.old found.now)) }
        ensures changed { IfOk result (λ answer. self.new ≡ after_change (put_at self.old found.now) self.old answer) }
        ensures links { KeepsLinks self.old self.new }
    {
        let alloc = self.names.alloc();
        let Some(variable) = self.names.at_mut(found.variable) else {
            return Ok(None);
        };
        change_in(alloc, variable, found.element.as_ref(), changing)
    }

    /// The indices of an array, in order; None if the name is no array.
    ///
    /// `NoMemory` if memory for them is refused.
    pub(crate) fn names(&self, name: &Text) -> Result<Option<Texts>, NoMemory>
        ensures names { IfOk result (λ names.
            names ≡ option_map keys_of (elements_of (variable_named self.now name.now))) }
    {
        match self.names.get(name) {
            Some(Variable::Array(elements)) => {
                let names = elements.names()?;
                Ok(Some(names))
            }
            _ => Ok(None),
        }
    }

    /// Whether a name is a scalar or an array.
    pub(crate) fn is_set(&self, name: &Text) -> bool
        ensures set { result ≡ is_set (variable_named self.now name.now) }
    {
        matches!(
            self.names.get(name),
            Some(Variable::Scalar(_) | Variable::Array(_))
        )
    }

    /// How many elements an array has; None if the name is no array.
    pub(crate) fn size(&self, name: &Text) -> Option<usize>
        ensures size { result ≡ option_map length (elements_of (variable_named self.now name.now)) }
    {
        match self.names.get(name)? {
            Variable::Array(elements) => Some(elements.len()),
            Variable::Scalar(_) | Variable::Link(_) => None,
        }
    }
}

// Whether a variable has what an index names.
fn has_element(variable: &Variable, index: Option<&Text>) -> Result<(), VarFault>
    ensures { result ≡ has_element variable.now (option_copied index.entry) }
{
    match (variable, index) {
        (Variable::Scalar(_) | Variable::Array(_), None) => Ok(()),
        (Variable::Array(elements), Some(index)) => elements.has(index),
        (Variable::Scalar(_) | Variable::Link(_), _) => Err(VarFault::NotArray),
    }
}
