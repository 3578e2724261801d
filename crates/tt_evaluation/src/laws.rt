//! Laws of evaluation, proved as the contract of a function that does nothing.
ghost use Rattle.tt_evaluation.specs.EvaluationLaws.{EquationLaw, MoreStepsLaw, OneWantLaw};

use crate::Language;

/// Evaluation follows the plan of each job, and nothing else that does so differs from it; more steps give the same; a
/// job wants one thing next.
pub fn evaluation_follows_plans<L: Language>()
    ensures equation { EquationLaw L.plan }
    ensures more { MoreStepsLaw L.plan }
    ensures one { OneWantLaw L.plan }
{}
