ghost use Rattle.std.specs.Prelude.{◌≡◌};
ghost use Rattle.tt_script.specs.Messages.{parse_message};

use crate::command::ParseFault;

impl ParseFault {
    /// The text of the error that a command gives which can't be read (Tcl(n)).
    pub fn message(self) -> &'static [u8]
        ensures message { result.now ≡ parse_message self }
    {
        match self {
            ParseFault::CloseBrace => b"missing close-brace",
            ParseFault::CloseBracket => b"missing close-bracket",
            ParseFault::CloseQuote => b"missing \"",
            ParseFault::AfterBrace => b"extra characters after close-brace",
            ParseFault::AfterQuote => b"extra characters after close-quote",
            ParseFault::CloseParen => b"missing )",
            ParseFault::VariableBrace => b"missing close-brace for variable name",
            ParseFault::TooDeep => b"nested too deeply",
        }
    }
}
