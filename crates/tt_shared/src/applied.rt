use tt_calls::Reply;
use tt_text::Text;

/// What was read of standard input for a request (gets(n)).
#[derive(Debug, Drop)]
pub enum Line {
    /// The request reads nothing.
    NotRead,
    /// The bytes of a line, with the newline that ends it; without one the end of standard input was met behind them.
    Read(Text),
    /// The end was met, and there are no bytes before it.
    End,
    /// A line of more bytes than a text may have.
    TooLong,
}

/// What answering a request gives.
#[derive(Debug, Drop)]
pub struct Applied {
    /// What the thread is answered.
    pub reply: Reply,
    /// What is to be put on standard output.
    pub out: Text,
    /// What is to be put on standard error.
    pub err: Text,
    /// The exit code of the run, from 0 to 255, if it is over.
    pub over: Option<u8>,
    /// How many threads were made.
    pub made: u32,
}
