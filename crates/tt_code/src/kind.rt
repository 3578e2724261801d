ghost use Rattle.std.specs.Prelude.{◌≡◌};
ghost use Rattle.tt_code.specs.Kinds.{kind_of};

use tt_exprs::Op;

/// How an operator takes its operands (expr(n), Operators).
#[derive(Clone, Copy, Debug, PartialEq, Eq)]
pub(crate) enum Kind {
    /// The values of all of them.
    Eager,
    /// The second if the first is true: `&&`.
    Both,
    /// The second if the first is false: `||`.
    Either,
    /// The second or the third, by the truth of the first: `? :`.
    OneOf,
}

pub(crate) fn kind_of(op: Op) -> Kind
    ensures { result ≡ kind_of op }
{
    match op {
        Op::And => Kind::Both,
        Op::Or => Kind::Either,
        Op::Choose => Kind::OneOf,
        _ => Kind::Eager,
    }
}
