ghost use Rattle.std.specs.Prelude.{◌≡◌, ◌++◌, ◌∷◌, [], IfOk, OnErr, OnOk};

use crate::Value;
use std::alloc::Global;
use std::marker::Model;
use tt_text::{NoMemory, Text, Texts};

/// Values in a row, as the words of a command are (Tcl(n)). Contracts see the list of their texts.
#[derive(Debug, Drop)]
pub struct Values {
    items: Vec<Value>,
}

impl Model for Values {
    ghost use Rattle.std.specs.Prelude.{ℕ, List};

    ghost Value = { List (List ℕ) };

    ghost view = { λ values. values.items.items };
}

impl Values {
    /// No values. It takes no memory.
    pub fn new(alloc: Global) -> Self
        ensures empty { result ≡ [] }
    {
        Values {
            items: Vec::new(alloc),
        }
    }

    /// The values, from the first to the last.
    pub fn as_slice(&self) -> &[Value]
        ensures items { result.now ≡ self.now }
    {
        self.items.as_slice()
    }

    /// Adds a value at the end.
    ///
    /// `NoMemory` if memory for it is refused; then the list is as it was.
    pub fn push(&mut self, value: Value) -> Result<(), NoMemory>
        ensures pushed { OnOk result (self.new ≡ self.old ++ value ∷ []) }
        ensures unchanged { OnErr result (self.new ≡ self.old) }
    {
        self.items.push(value)?;
        Ok(())
    }

    /// The values as a vector. None is copied.
    pub fn into_vec(self) -> Vec<Value>
        ensures items { result.items ≡ self }
    {
        let Values { items } = self;
        items
    }

    /// Their texts.
    ///
    /// `NoMemory` if memory is refused.
    pub fn to_texts(&self, alloc: Global) -> Result<Texts, NoMemory>
        ensures texts { IfOk result (λ texts. texts ≡ self.now) }
    {
        texts_of(alloc, self.items.as_slice())
    }
}

impl From<Vec<Value>> for Values {
    ghost from_gives = { λ items values. values ≡ items.items };

    fn from(items: Vec<Value>) -> Self {
        Values { items }
    }
}

/// The texts of values.
///
/// `NoMemory` if memory is refused.
pub fn texts_of(alloc: Global, values: &[Value]) -> Result<Texts, NoMemory>
    ensures texts { IfOk result (λ texts. texts ≡ values.now) }
{
    let mut texts = Vec::new(alloc);
    texts.reserve(values.len())?;
    push_texts(alloc, &mut texts, values)?;
    Ok(Texts::from(texts))
}

fn push_texts(alloc: Global, texts: &mut Vec<Text>, values: &[Value]) -> Result<(), NoMemory>
    ensures { OnOk result (texts.new.items ≡ texts.old.items ++ values.now) }
{
    for value in values {
        texts.push(value.to_text(alloc)?)?;
    }
    Ok(())
}

/// The values of texts.
///
/// `NoMemory` if memory is refused.
pub fn values_of(alloc: Global, texts: &[Text]) -> Result<Values, NoMemory>
    ensures values { IfOk result (λ values. values ≡ texts.now) }
{
    let mut values = Vec::new(alloc);
    values.reserve(texts.len())?;
    push_values(&mut values, texts)?;
    Ok(Values::from(values))
}

fn push_values(values: &mut Vec<Value>, texts: &[Text]) -> Result<(), NoMemory>
    ensures { OnOk result (values.new.items ≡ values.old.items ++ texts.now) }
{
    for text in texts {
        values.push(Value::from_text(text.copy()?))?;
    }
    Ok(())
}
