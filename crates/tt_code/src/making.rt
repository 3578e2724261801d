//! Code is made.
ghost use Rattle.std.specs.Prelude.{◌≡◌, IfOk};
ghost use Rattle.tt_script.specs.Plain.{plain_words};
ghost use Rattle.tt_exprs.specs.Plain.{plain_expr};
ghost use Rattle.tt_code.specs.Code.{needs_of};
ghost use Rattle.tt_code.specs.Expressions.{condition_needs, value_needs};
ghost use Rattle.tt_code.specs.Substitution.{words_needs};

use crate::builder::Builder;
use crate::code::{Code, Instruction};
use crate::expressions::push_expression;
use crate::words::push_words;
use std::alloc::Global;
use tt_exprs::Expr;
use tt_script::Word;
use tt_text::NoMemory;

/// The code of a command's words, which comes to their values (Tcl(n), rules 5 to 11).
///
/// `NoMemory` if the memory for it is refused.
#[tactic(auto, using(crate::proofs::WordLaw::words_law))]
pub fn words_code(alloc: Global, words: &[Word]) -> Result<Code, NoMemory>
    ensures needs { IfOk result (λ code. needs_of code ≡ words_needs (plain_words words.now)) }
{
    let mut builder = Builder::new(alloc);
    push_words(alloc, words, &mut builder)?;
    Ok(Code {
        instructions: builder.finish(),
    })
}

/// The code of a whole expression as a value, which comes to its result (expr(n)).
///
/// `NoMemory` if the memory for it is refused.
#[tactic(auto, using(crate::proofs::ExpressionLaw::value_law))]
pub fn value_code(alloc: Global, expression: &Expr) -> Result<Code, NoMemory>
    ensures needs { IfOk result (λ code. needs_of code ≡ value_needs (plain_expr expression.now)) }
{
    let mut builder = Builder::new(alloc);
    builder.push(Instruction::Give)?;
    builder.push(Instruction::Result)?;
    push_expression(alloc, expression, &mut builder)?;
    Ok(Code {
        instructions: builder.finish(),
    })
}

/// The code of a whole expression as a condition, which comes to 1 or 0 (if(n), while(n)).
///
/// `NoMemory` if the memory for it is refused.
#[tactic(auto, using(crate::proofs::ExpressionLaw::condition_law))]
pub fn condition_code(alloc: Global, expression: &Expr) -> Result<Code, NoMemory>
    ensures needs { IfOk result (λ code. needs_of code ≡ condition_needs (plain_expr expression.now)) }
{
    let mut builder = Builder::new(alloc);
    builder.push(Instruction::Give)?;
    builder.push(Instruction::Truth)?;
    builder.push(Instruction::Result)?;
    push_expression(alloc, expression, &mut builder)?;
    Ok(Code {
        instructions: builder.finish(),
    })
}
