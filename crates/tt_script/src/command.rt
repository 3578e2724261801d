use tt_text::Text;

/// A part of a word, in the order in which Tcl(n), rule 11, substitutes them.
#[derive(Debug, Drop)]
pub enum Part {
    /// Bytes that stand for themselves, backslashes replaced: a longest run of them, and never empty.
    Letters(Text),
    /// The value of the variable of this name.
    Variable(Text),
    /// The value of an element of the array of this name, whose index is substituted.
    Element(Text, Vec<Part>),
    /// The result of this script, which stood in brackets.
    Script(Text),
}

/// A word of a command.
#[derive(Debug, Drop)]
pub struct Word {
    /// Whether the word is a list whose elements are the command's words (Tcl(n), rule 5).
    pub expand: bool,
    /// What the word is made of. An empty word has no parts.
    pub parts: Vec<Part>,
}

/// A command of a script, and where it stands there. Places are offsets in bytes.
#[derive(Debug, Drop)]
pub struct Command {
    /// At least one word.
    pub words: Vec<Word>,
    /// The place of the first byte.
    pub start: usize,
    /// The place after the last word.
    pub text_end: usize,
    /// The place after the newline or semicolon that ends the command, or the end of the script.
    pub next: usize,
}

/// Why a text has no command.
#[derive(Clone, Copy, Debug, PartialEq, Eq)]
pub enum ParseFault {
    /// A brace that begins a word isn't closed.
    CloseBrace,
    /// A bracket isn't closed.
    CloseBracket,
    /// A quote that begins a word isn't closed.
    CloseQuote,
    /// A word in braces is followed by something other than a separator.
    AfterBrace,
    /// A word in quotes is followed by something other than a separator.
    AfterQuote,
    /// The index of a variable isn't closed.
    CloseParen,
    /// The brace of `${` isn't closed.
    VariableBrace,
    /// More than 1,000 brackets and indices of one command are open at once.
    TooDeep,
}

/// What a text begins with.
#[derive(Debug, Drop)]
pub enum First {
    /// Blanks, separators and comments alone.
    Nothing,
    /// A command that can't be read, with the place of its first byte.
    Bad(ParseFault, usize),
    /// A command.
    Command(Command),
}

/// Where a command stands.
#[derive(Clone, Copy, Debug, PartialEq, Eq)]
pub(crate) enum Place {
    /// In a script.
    Script,
    /// In brackets, if `]` ends the last command.
    Brackets,
}

/// What ends a run of parts.
#[derive(Clone, Copy, Debug, PartialEq, Eq)]
pub(crate) enum Ending {
    /// What ends a bare word of a command that stands there.
    Word(Place),
    /// The quote of a word in quotes.
    Quote,
    /// The parenthesis of an index.
    Parenthesis,
}
