use tt_text::{Text, Texts};

/// What keeps a text from being a list (Tcl(n), lists).
#[derive(Debug, Drop)]
pub enum ListFault {
    /// An item's first brace has none that closes it.
    OpenBrace,
    /// An item's first quote has none that closes it.
    OpenQuote,
    /// An item in braces is followed by these bytes in place of white space: those up to the next white
    /// space, at most 20.
    AfterBrace(Text),
    /// An item in quotes is followed by these bytes, cut in the same way.
    AfterQuote(Text),
}

/// A text split into the items of a list, or what keeps it from being one.
#[derive(Debug, Drop)]
pub enum Split {
    Items(Texts),
    Bad(ListFault),
}
