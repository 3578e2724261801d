/// Why a variable is not read, written or removed (set(n), unset(n)).
#[derive(Clone, Copy, Debug, PartialEq, Eq)]
pub enum VarFault {
    /// The name, or the array of an element that is named in full, is missing.
    NoSuchVariable,
    /// The array has no such element; or a link leads to an element that is missing.
    NoSuchElement,
    /// An array is named if a scalar is needed.
    IsArray,
    /// An element is named of what is a scalar or an element.
    NotArray,
}

/// Whether a value was written.
#[derive(Clone, Copy, Debug, PartialEq, Eq)]
pub enum Written {
    /// It was.
    Yes,
    /// It was not, and nothing has changed.
    No(VarFault),
}

/// Whether a name was made a link (upvar(n)).
#[derive(Clone, Copy, Debug, PartialEq, Eq)]
pub enum Linked {
    /// It was.
    Yes,
    /// The name is a scalar or an array, or the other name's variable is the name itself. Nothing has changed.
    Exists,
    /// The other name stands for the name itself. Nothing has changed.
    Itself,
}
