ghost use Rattle.std.specs.Prelude.{◌≡◌};
ghost use Rattle.tt_value.specs.Reading.{answer_of};

use crate::Value;
use std::marker::Model;
use tt_lists::ListAnswer;
use tt_text::Text;

/// What a command makes: a value, or the message of why there is none. Contracts see the answer, with the value's text.
#[derive(Debug, Drop)]
pub struct Made {
    inside: Result<Value, Text>,
}

impl Model for Made {
    ghost use Rattle.tt_lists.specs.declared.answer.ListAnswer.{ListAnswer};
    ghost use Rattle.tt_value.specs.Reading.{answer_of};

    ghost Value = { ListAnswer };

    ghost view = { λ made. answer_of made.inside };
}

impl Made {
    /// That value.
    pub fn value(value: Value) -> Self
        ensures value { result ≡ ListAnswer.Made value }
    {
        Made { inside: Ok(value) }
    }

    /// No value, but this message.
    pub fn bad(message: Text) -> Self
        ensures bad { result ≡ ListAnswer.Bad message }
    {
        Made {
            inside: Err(message),
        }
    }

    /// An answer as it is.
    pub fn from_answer(answer: ListAnswer) -> Self
        ensures same { result ≡ answer }
    {
        match answer {
            ListAnswer::Made(text) => Made::value(Value::from_text(text)),
            ListAnswer::Bad(message) => Made::bad(message),
        }
    }

    /// The value, or the message.
    pub fn into_result(self) -> Result<Value, Text>
        ensures same { answer_of result ≡ self }
    {
        self.inside
    }
}
