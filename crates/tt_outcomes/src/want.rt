use tt_calls::{Boxed, Request};
use tt_text::Text;
use tt_value::{Value, Values};

/// Whose text is evaluated in a nested evaluation.
#[derive(Debug, Drop)]
pub enum Body {
    /// The body of the procedure that was called by this name (proc(n)).
    Procedure { name: Text },
    /// The script of eval(n).
    Plain,
    /// The script of uplevel(n).
    Level,
    /// A script at global level: of an event that is served, or one that a thread sends to itself (thread(n)).
    Global,
}

/// What an evaluation wants next.
#[derive(Debug, Drop)]
pub enum Want {
    /// The value of a variable, or of an element of an array (Tcl(n), rule 8).
    ReadVar {
        name: Text,
        index: Option<Text>,
    },
    /// That a variable or an element gets this value.
    WriteVar {
        name: Text,
        index: Option<Text>,
        value: Value,
    },
    /// That the command of these words is run, its name first.
    RunWords {
        words: Values,
    },
    /// That the global level becomes the current one.
    Enter,
    /// The level before a body, which has ended.
    Leave {
        body: Body,
    },
    /// That a global variable is watched (vwait(n)).
    Watch {
        name: Text,
    },
    /// Whether the variable that was watched last was written since.
    Seen,
    /// That the variable that was watched last is watched no more.
    Unwatch,
    /// An action on what the threads share.
    Ask {
        request: Boxed<Request>,
    },
}
