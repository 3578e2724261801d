use std::alloc::Global;
use std::marker::Model;
use tt_text::NoMemory;

/// A value behind a pointer, so that what holds it is small. Contracts see the value.
#[derive(Debug, Drop)]
pub struct Boxed<T> {
    inside: Box<T>,
}

impl<T> Model for Boxed<T> {
    ghost Value = { T };

    ghost view = { λ boxed. boxed.inside.value };
}

impl<T: Drop> Boxed<T> {
    ghost use Rattle.std.specs.Prelude.{◌≡◌, IfOk};

    /// The value, behind a pointer.
    ///
    /// `NoMemory` if the memory for it is refused.
    pub fn new(alloc: Global, value: T) -> Result<Self, NoMemory>
        ensures boxed { IfOk result (λ boxed. boxed ≡ value) }
    {
        Ok(Boxed {
            inside: Box::new(alloc, value)?,
        })
    }

    /// The value itself.
    pub fn into_inner(self) -> T
        ensures opened { result ≡ self }
    {
        Box::into_inner(self.inside)
    }

    /// The value, lent.
    pub fn get(&self) -> &T
        ensures lent { result.now ≡ self.now }
    {
        &self.inside
    }
}
