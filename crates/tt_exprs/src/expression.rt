use crate::op::Op;
use tt_script::Part;
use tt_text::Text;

/// An expression, as expr(n) has it.
#[derive(Debug, Drop)]
pub enum Expr {
    /// A text that stands for itself: a number or a boolean word as it is spelled, or what stands in
    /// braces.
    Leaf(Text),
    /// A variable, a script in brackets or what stands in quotes: the parts to substitute.
    Words(Vec<Part>),
    /// An operator or a function with its operands, from left to right.
    Node(Op, Vec<Expr>),
}

/// What a text is read as.
#[derive(Debug, Drop)]
pub enum Parsed {
    /// The tree of its expression.
    Tree(Expr),
    /// The message of the error that it has.
    Bad(Text),
}
