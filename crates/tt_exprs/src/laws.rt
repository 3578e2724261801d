//! What the definitions that other crates cite say together. Nothing runs here.
ghost use Rattle.tt_exprs.specs.Apply.{NumbersLaw};
ghost use Rattle.tt_exprs.specs.ExprGrammar.{TreeLaw, DepthLaw, FormLaw};
ghost use Rattle.tt_exprs.specs.TextLaw.{TokenLaw, TextTreeLaw, TextErrorLaw};

/// The function that makes a tree of tokens is the grammar of expr(n): it has a tree exactly if
/// the grammar has one, and that one, unless it is nested too deeply.
pub fn expression_grammar()
    ensures tree { TreeLaw }
    ensures depth { DepthLaw }
    ensures form { FormLaw }
{}

/// The function that cuts a text into tokens is the grammar of tokens, and so `parse` has a tree exactly
/// if the text's tokens spell one that is nested no deeper than it may be, and that one; else the error
/// that is met first.
pub fn expression_text()
    ensures tokens { TokenLaw }
    ensures tree { TextTreeLaw }
    ensures error { TextErrorLaw }
{}

/// On numbers that were read already, an operator gives what it gives on their texts.
pub fn operators_on_numbers()
    ensures numbers { NumbersLaw }
{}
