//! Code that is kept, so that a text that is evaluated again isn't read again. No contract rests on which code that is:
//! it is taken only if its own text is the one that is evaluated.
ghost use Rattle.std.specs.Prelude.{◌≡◌, IfOk, IfSome};
ghost use Rattle.std.specs.Arc.{arc_value};
ghost use Rattle.tt_code.specs.Code.{needs_of};
ghost use Rattle.tt_frames.specs.Expressions.{made_needs, text_needs};

use crate::expression::Expression;
use crate::program::Program;
use lru::LruCache;
use std::alloc::Global;
use std::num::NonZeroUsize;
use std::sync::Arc;
use tt_code::{Code, value_code};
use tt_exprs::{Parsed, parse};
use tt_text::{NoMemory, Text};

/// How many scripts are kept, and how many expressions, at most; those go that were used last the longest ago.
const MOST: usize = 256;

/// Code by its text.
#[derive(Debug, Drop)]
pub(crate) struct Kept {
    alloc: Global,
    programs: LruCache<Text, Arc<Program>>,
    expressions: LruCache<Text, Arc<Expression>>,
}

/// An expression that was read.
#[derive(Debug, Drop)]
pub enum Made {
    /// Its code.
    Code(Arc<Code>),
    /// The message of its error.
    Bad(Text),
}

impl Kept {
    /// Nothing is kept yet.
    ///
    /// `NoMemory` if memory is refused.
    pub(crate) fn new(alloc: Global) -> Result<Self, NoMemory> {
        let most = NonZeroUsize::new(MOST).ok_or(NoMemory)?;
        Ok(Kept {
            alloc,
            programs: LruCache::sparse(alloc, most)?,
            expressions: LruCache::sparse(alloc, most)?,
        })
    }

    /// A script, made into code.
    ///
    /// `NoMemory` if memory is refused.
    pub(crate) fn script(&mut self, text: Text) -> Result<Arc<Program>, NoMemory>
        ensures script { IfOk result (λ program. arc_value program ≡ text) }
    {
        if let Some(program) = self.known_script(&text)? {
            return Ok(program);
        }
        let key = text.copy()?;
        let program = Arc::new(self.alloc, Program::new(self.alloc, text)?)?;
        self.programs.put(key, program.clone()?)?;
        Ok(program)
    }

    fn known_script(&mut self, text: &Text) -> Result<Option<Arc<Program>>, NoMemory>
        ensures { IfOk result (λ known. IfSome known (λ program. arc_value program ≡ text.now)) }
    {
        match self.programs.get(text) {
            Some(program) => same_script(program, text),
            None => Ok(None),
        }
    }

    /// A text as an expression, made into code.
    ///
    /// `NoMemory` if memory is refused.
    pub(crate) fn expression(&mut self, text: Text) -> Result<Made, NoMemory>
        ensures expression { IfOk result (λ made. made_needs made ≡ text_needs text) }
    {
        if let Some(code) = self.known_expression(&text)? {
            return Ok(Made::Code(code));
        }
        match parse(self.alloc, text.as_bytes())? {
            Parsed::Bad(message) => Ok(Made::Bad(message)),
            Parsed::Tree(whole) => {
                let code = Arc::new(self.alloc, value_code(self.alloc, &whole)?)?;
                let made = code.clone()?;
                self.keep_expression(text, code)?;
                Ok(Made::Code(made))
            }
        }
    }

    fn known_expression(&mut self, text: &Text) -> Result<Option<Arc<Code>>, NoMemory>
        ensures { IfOk result (λ known. IfSome known (λ code. needs_of (arc_value code) ≡ text_needs text.now)) }
    {
        match self.expressions.get(text) {
            Some(expression) => same_expression(expression, text),
            None => Ok(None),
        }
    }

    fn keep_expression(&mut self, text: Text, code: Arc<Code>) -> Result<(), NoMemory>
        requires { needs_of (arc_value code) ≡ text_needs text }
    {
        let key = text.copy()?;
        let expression = Arc::new(self.alloc, Expression::new(text, code))?;
        self.expressions.put(key, expression)?;
        Ok(())
    }
}

// The script that is kept, if it is this one.
fn same_script(program: &Arc<Program>, text: &Text) -> Result<Option<Arc<Program>>, NoMemory>
    ensures { IfOk result (λ known. IfSome known (λ program. arc_value program ≡ text.now)) }
{
    if program.text() == text.as_bytes() {
        let program = program.clone()?;
        Ok(Some(program))
    } else {
        Ok(None)
    }
}

// The code of the expression that is kept, if it is this one's.
fn same_expression(expression: &Arc<Expression>, text: &Text) -> Result<Option<Arc<Code>>, NoMemory>
    ensures { IfOk result (λ known. IfSome known (λ code. needs_of (arc_value code) ≡ text_needs text.now)) }
{
    if expression.text() == text.as_bytes() {
        let code = expression.code()?;
        Ok(Some(code))
    } else {
        Ok(None)
    }
}
