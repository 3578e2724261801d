//! The table of operators (expr(n), OPERATORS; mathfunc(n)).
ghost use Rattle.std.specs.Prelude.{◌≡◌};
ghost use Rattle.tt_exprs.specs.Operators as operators;

use crate::op::Op;

/// How an operator binds: the higher its level, the tighter.
#[derive(Clone, Copy, Debug, PartialEq, Eq)]
pub(crate) enum Binding {
    /// It stands before its one operand, and binds tightest.
    Before,
    /// It stands between operands, of which the left one may be of its own level.
    Leftwards(u8),
    /// It stands between operands, of which the right one may be of its own level.
    Rightwards(u8),
    /// It is a function, with its operands in parentheses.
    Called,
}

/// How many operands an operator has.
#[derive(Clone, Copy, Debug, PartialEq, Eq)]
pub(crate) enum Operands {
    One,
    Two,
    Three,
    OneOrMore,
}

/// What the table says of an operator.
#[derive(Clone, Copy)]
struct Row {
    /// How it stands in an expression.
    spelling: &'static [u8],
    binding: Binding,
    operands: Operands,
}

impl Row {
    fn new(spelling: &'static [u8], binding: Binding, operands: Operands) -> Self
        ensures spelling { result.spelling.now ≡ spelling.now }
        ensures binding { result.binding ≡ binding }
        ensures operands { result.operands ≡ operands }
    {
        Row {
            spelling,
            binding,
            operands,
        }
    }
}

/// The table.
fn row_of(op: Op) -> Row
    ensures spelling { result.spelling.now ≡ operators.spelling op }
    ensures binding { result.binding ≡ operators.binding op }
    ensures operands { result.operands ≡ (operators.row_of op).operands }
{
    match op {
        Op::Neg => Row::new(b"-", Binding::Before, Operands::One),
        Op::Plus => Row::new(b"+", Binding::Before, Operands::One),
        Op::BitNot => Row::new(b"~", Binding::Before, Operands::One),
        Op::Not => Row::new(b"!", Binding::Before, Operands::One),
        Op::Pow => Row::new(b"**", Binding::Rightwards(13), Operands::Two),
        Op::Mul => Row::new(b"*", Binding::Leftwards(12), Operands::Two),
        Op::Div => Row::new(b"/", Binding::Leftwards(12), Operands::Two),
        Op::Mod => Row::new(b"%", Binding::Leftwards(12), Operands::Two),
        Op::Add => Row::new(b"+", Binding::Leftwards(11), Operands::Two),
        Op::Sub => Row::new(b"-", Binding::Leftwards(11), Operands::Two),
        Op::Shl => Row::new(b"<<", Binding::Leftwards(10), Operands::Two),
        Op::Shr => Row::new(b">>", Binding::Leftwards(10), Operands::Two),
        Op::Less => Row::new(b"<", Binding::Leftwards(9), Operands::Two),
        Op::Greater => Row::new(b">", Binding::Leftwards(9), Operands::Two),
        Op::LessEqual => Row::new(b"<=", Binding::Leftwards(9), Operands::Two),
        Op::GreaterEqual => Row::new(b">=", Binding::Leftwards(9), Operands::Two),
        Op::Equal => Row::new(b"==", Binding::Leftwards(8), Operands::Two),
        Op::NotEqual => Row::new(b"!=", Binding::Leftwards(8), Operands::Two),
        Op::TextEqual => Row::new(b"eq", Binding::Leftwards(7), Operands::Two),
        Op::TextNotEqual => Row::new(b"ne", Binding::Leftwards(7), Operands::Two),
        Op::Member => Row::new(b"in", Binding::Leftwards(6), Operands::Two),
        Op::NotMember => Row::new(b"ni", Binding::Leftwards(6), Operands::Two),
        Op::BitAnd => Row::new(b"&", Binding::Leftwards(5), Operands::Two),
        Op::BitXor => Row::new(b"^", Binding::Leftwards(4), Operands::Two),
        Op::BitOr => Row::new(b"|", Binding::Leftwards(3), Operands::Two),
        Op::And => Row::new(b"&&", Binding::Leftwards(2), Operands::Two),
        Op::Or => Row::new(b"||", Binding::Leftwards(1), Operands::Two),
        Op::Choose => Row::new(b"?", Binding::Rightwards(0), Operands::Three),
        Op::Abs => Row::new(b"abs", Binding::Called, Operands::One),
        Op::Int => Row::new(b"int", Binding::Called, Operands::One),
        Op::Max => Row::new(b"max", Binding::Called, Operands::OneOrMore),
        Op::Min => Row::new(b"min", Binding::Called, Operands::OneOrMore),
    }
}

/// An operator as it stands in an expression, or a function's name.
pub(crate) fn spelling(op: Op) -> &'static [u8]
    ensures { result.now ≡ operators.spelling op }
{
    row_of(op).spelling
}

/// The level of an operator between operands.
pub(crate) fn level(op: Op) -> Option<u8>
    ensures { result ≡ operators.level (operators.binding op) }
{
    match row_of(op).binding {
        Binding::Leftwards(level) | Binding::Rightwards(level) => Some(level),
        Binding::Before | Binding::Called => None,
    }
}

/// The level that the left operand of an operator between operands has at least.
pub(crate) fn left_level(op: Op) -> Option<u8>
    ensures { result ≡ operators.left_level (operators.binding op) }
{
    match row_of(op).binding {
        Binding::Leftwards(level) => Some(level),
        Binding::Rightwards(level) => Some(level + 1),
        Binding::Before | Binding::Called => None,
    }
}

/// Whether an operator has so many operands.
pub(crate) fn takes(op: Op, count: usize) -> bool
    ensures { result ≡ operators.takes op count }
{
    match row_of(op).operands {
        Operands::One => count == 1,
        Operands::Two => count == 2,
        Operands::Three => count == 3,
        Operands::OneOrMore => count > 0,
    }
}
