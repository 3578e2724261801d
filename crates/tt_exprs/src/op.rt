//! The operators and functions of an expression.

use crate::operators::takes;

/// An operator or a function of an expression, as expr(n) names them.
#[derive(Clone, Copy, Debug, PartialEq, Eq)]
pub enum Op {
    /// `-x`
    Neg,
    /// `+x`
    Plus,
    /// `~x`
    BitNot,
    /// `!x`
    Not,
    /// `x ** y`
    Pow,
    /// `x * y`
    Mul,
    /// `x / y`
    Div,
    /// `x % y`
    Mod,
    /// `x + y`
    Add,
    /// `x - y`
    Sub,
    /// `x << y`
    Shl,
    /// `x >> y`
    Shr,
    /// `x < y`
    Less,
    /// `x > y`
    Greater,
    /// `x <= y`
    LessEqual,
    /// `x >= y`
    GreaterEqual,
    /// `x == y`
    Equal,
    /// `x != y`
    NotEqual,
    /// `x eq y`
    TextEqual,
    /// `x ne y`
    TextNotEqual,
    /// `x in y`
    Member,
    /// `x ni y`
    NotMember,
    /// `x & y`
    BitAnd,
    /// `x ^ y`
    BitXor,
    /// `x | y`
    BitOr,
    /// `x && y`
    And,
    /// `x || y`
    Or,
    /// `x ? y : z`
    Choose,
    /// `abs(x)`
    Abs,
    /// `int(x)`
    Int,
    /// `max(x, y, ..)`
    Max,
    /// `min(x, y, ..)`
    Min,
}

impl Op {
    ghost use Rattle.std.specs.Prelude.{◌≡◌};
    ghost use Rattle.tt_exprs.specs.Apply.{is_lazy, takes_numbers};
    ghost use Rattle.tt_exprs.specs.Operators as operators;

    /// Whether it evaluates only those of its operands that it needs: `&&`, `||` and `? :`.
    pub fn is_lazy(self) -> bool
        ensures { result ≡ is_lazy self }
    {
        matches!(self, Op::And | Op::Or | Op::Choose)
    }

    /// Whether it takes its operands as numbers where they are: all but those that evaluate what they
    /// need alone, and `eq`, `ne`, `in` and `ni`, which take texts.
    pub fn takes_numbers(self) -> bool
        ensures { result ≡ takes_numbers self }
    {
        match self {
            Op::And | Op::Or | Op::Choose => false,
            Op::TextEqual | Op::TextNotEqual | Op::Member | Op::NotMember => false,
            _ => true,
        }
    }

    /// Whether it has this number of operands.
    pub fn takes(self, count: usize) -> bool
        ensures { result ≡ operators.takes self count }
    {
        takes(self, count)
    }
}
