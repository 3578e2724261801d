//! Loops whose parts were made into code (while(n), for(n)).
ghost use Rattle.std.specs.Prelude.{◌≡◌, IfOk, IfSome};
ghost use Rattle.std.specs.Arc.{arc_value};
ghost use Rattle.std.specs.Option.{option_map};
ghost use Rattle.tt_direct.specs.inside.Loops.{loop_of, loop_with};

use std::alloc::Global;
use std::sync::Arc;
use tt_frames::{Expression, Loop, Made, Program, State};
use tt_text::{NoMemory, Text};

/// A loop with its test and its scripts. A contract says which loop.
#[derive(Debug, Drop)]
pub(crate) struct Parts {
    pub(crate) test: Expression,
    pub(crate) body: Arc<Program>,
    /// The script after each body (for(n)).
    pub(crate) next: Option<Arc<Program>>,
}

impl Parts {
    /// The parts of a loop, if it has a test that can be read.
    ///
    /// `NoMemory` if memory is refused.
    pub(crate) fn of(state: &mut State, whole: &Loop) -> Result<Option<Self>, NoMemory>
        ensures parts { IfOk result (λ parts. IfSome parts (λ parts. loop_of parts ≡ whole.now)) }
        ensures same { state.new ≡ state.old }
    {
        match whole {
            Loop::While { test, body } => Parts::with(state, test, body, None),
            Loop::For { test, next, body } => {
                let next = state.script(next.copy()?)?;
                Parts::with(state, test, body, Some(next))
            }
            Loop::Foreach { .. } => Ok(None),
        }
    }

    fn with(
        state: &mut State,
        test: &Text,
        body: &Text,
        next: Option<Arc<Program>>,
    ) -> Result<Option<Self>, NoMemory>
        ensures parts { IfOk result (λ parts. IfSome parts (λ parts.
            loop_of parts ≡ loop_with test.now body.now (option_map arc_value next))) }
        ensures same { state.new ≡ state.old }
    {
        let Made::Code(code) = state.expression(test.copy()?)? else {
            return Ok(None);
        };
        Ok(Some(Parts {
            test: Expression::new(test.copy()?, code),
            body: state.script(body.copy()?)?,
            next,
        }))
    }

    /// The loop.
    ///
    /// `NoMemory` if memory is refused.
    pub(crate) fn whole(&self, alloc: Global) -> Result<Loop, NoMemory>
        ensures whole { IfOk result (λ whole. whole ≡ loop_of self.now) }
    {
        let test = Text::from_bytes(alloc, self.test.text())?;
        let body = Text::from_bytes(alloc, self.body.text())?;
        match &self.next {
            None => Ok(Loop::While { test, body }),
            Some(next) => {
                let next = Text::from_bytes(alloc, next.text())?;
                Ok(Loop::For { test, next, body })
            }
        }
    }
}
