use tt_calls::Code;
use tt_text::{Text, Texts};
use tt_value::Value;

/// What the words of a command come to, if its name is that of a command which controls evaluation.
#[derive(Debug, Drop)]
pub enum Control {
    /// The name is another one.
    Other,
    /// The command's error; nothing is evaluated.
    Bad(Text),
    /// The turn of the loop and the loop end (break(n)).
    Break,
    /// The turn of the loop ends (continue(n)).
    Continue,
    /// The procedure returns this value, and ends with the code that is kept (return(n)).
    Return {
        kept: Code,
        value: Value,
    },
    /// This error, whose trace begins with `info` if that is given (error(n)).
    Error {
        message: Text,
        info: Option<Text>,
    },
    /// The script is evaluated, and how it ended is the answer; this variable, if there is one, gets its result
    /// (catch(n)).
    Catch {
        script: Text,
        variable: Option<Text>,
    },
    /// This expression's value is the answer (expr(n)).
    Expr(Text),
    /// A test, the body that is evaluated if it holds, the next test, its body, and so on; a last body without a
    /// test is evaluated if none holds (if(n)).
    If {
        clauses: Texts,
    },
    /// The body is evaluated while the test holds (while(n)).
    While {
        test: Text,
        body: Text,
    },
    /// The start is evaluated; then, while the test holds, the body and after it `next` (for(n)).
    For {
        start: Text,
        test: Text,
        next: Text,
        body: Text,
    },
    /// The body is evaluated for each turn (foreach(n), dict(n)). `names` are the variables of all lists; `values` has
    /// for each turn one value for each of them, turn after turn.
    Foreach {
        names: Texts,
        values: Texts,
        body: Text,
    },
    /// This script is evaluated: the body that was chosen, and the empty script if none was (switch(n)).
    Script(Text),
}
