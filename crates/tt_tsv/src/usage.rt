/// A command on shared variables, with words of one form (tsv(n)).
#[derive(Clone, Copy, Debug, PartialEq, Eq)]
pub(crate) enum Usage {
    /// `tsv::names ?pattern?`
    Names,
    /// `tsv::get a k var`
    Find,
    /// `tsv::exists a k`
    Exists,
    /// `tsv::move a k new`
    Move,
    Array(ArrayUsage),
    Element(ElementUsage),
}

/// What is asked of an array.
#[derive(Clone, Copy, Debug, PartialEq, Eq)]
pub(crate) enum ArrayUsage {
    /// `tsv::unset a`
    Unset,
    /// `tsv::exists a`
    Exists,
    /// `tsv::array set a list`
    Set,
    /// `tsv::array get a ?pattern?`
    Get,
    /// `tsv::array names a ?pattern?`
    Names,
    /// `tsv::array size a`
    Size,
    /// `tsv::array reset a list`
    Reset,
}

/// What is asked of an element.
#[derive(Clone, Copy, Debug, PartialEq, Eq)]
pub(crate) enum ElementUsage {
    /// `tsv::set a k v`
    Set,
    /// `tsv::set a k`
    Read,
    /// `tsv::get a k`
    Get,
    /// `tsv::unset a k`
    Unset,
    /// `tsv::pop a k`
    Pop,
    /// `tsv::incr a k ?n?`
    Incr,
    /// `tsv::append a k ?v ...?`
    Append,
    /// `tsv::lappend a k ?v ...?`
    Lappend,
    /// `tsv::llength a k`
    Llength,
    /// `tsv::lindex a k ?i?`
    Lindex,
    /// `tsv::lrange a k i j`
    Lrange,
    /// `tsv::lsearch a k pattern`
    Lsearch,
    /// `tsv::lsearch a k mode pattern`
    LsearchBy,
    /// `tsv::linsert a k i ?v ...?`
    Linsert,
    /// `tsv::lreplace a k i j ?v ...?`
    Lreplace,
    /// `tsv::lpush a k v ?i?`
    Lpush,
    /// `tsv::lpop a k ?i?`
    Lpop,
}
