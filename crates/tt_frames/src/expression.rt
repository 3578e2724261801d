ghost use Rattle.std.specs.Prelude.{◌≡◌, IfOk};
ghost use Rattle.std.specs.Arc.{arc_value};
ghost use Rattle.tt_code.specs.Code.{needs_of};
ghost use Rattle.tt_frames.specs.Expressions.{text_needs};

use std::marker::Model;
use std::sync::Arc;
use tt_code::Code;
use tt_text::{NoMemory, Text};

/// An expression, made into code. Contracts see its text.
#[derive(Debug, Drop)]
pub struct Expression {
    text: Text,
    code: Arc<Code>,
}

impl Model for Expression {
    ghost use Rattle.std.specs.Prelude.{ℕ, List, ◌≡◌};
    ghost use Rattle.std.specs.Arc.{arc_value};
    ghost use Rattle.tt_code.specs.Code.{needs_of};
    ghost use Rattle.tt_frames.specs.Expressions.{text_needs};

    ghost Value = { List ℕ };

    ghost view = { λ expression. expression.text };

    ghost invariant = { λ expression. needs_of (arc_value expression.code) ≡ text_needs expression.text };
}

impl Expression {
    /// A text with its code.
    pub fn new(text: Text, code: Arc<Code>) -> Self
        requires code { needs_of (arc_value code) ≡ text_needs text }
        ensures text { result ≡ text }
    {
        Expression { text, code }
    }

    /// The text.
    pub fn text(&self) -> &[u8]
        ensures text { result.now ≡ self.now }
    {
        self.text.as_bytes()
    }

    /// The code.
    ///
    /// `NoMemory` if it can't be counted.
    pub fn code(&self) -> Result<Arc<Code>, NoMemory>
        ensures code { IfOk result (λ code. needs_of (arc_value code) ≡ text_needs self.now) }
    {
        let code = self.code.clone()?;
        Ok(code)
    }
}
