//! The round after a round. It reads the formulas of that round alone.
ghost use Rattle.std.specs.Prelude.{◌≡◌};
ghost use Rattle.std.specs.Option.{option_map};
ghost use Rattle.rules.specs.Surveys.{view};
ghost use Rattle.formulas.specs.FormulaViews.{formula_list, found};
ghost use Rattle.formulas.specs.Records.{entries};
ghost use Rattle.formulas.specs.RoundViews.{formulas_of, round_viewed, round_answer};
ghost use Rattle.formulas.specs.Rounds.{mixed_with, next_formula, next_round};

use crate::fault::{Overflow, SolveFault};
use crate::formula::Formula;
use crate::problem::Problem;
use crate::round::Round;
use crate::symbol::{Owner, PROCEDURES, Procedure};

impl Round {
    /// The formula of a procedure in the next round: its bodies by the number of their records.
    fn next_formula(&self, problem: &Problem<'_>, p: Procedure) -> Result<Formula, Overflow>
        ensures { found result ≡ next_formula 64 (view problem.now.table.now) (entries problem.now.set.now) (formulas_of self.now) p }
    {
        let Some(owner) = problem.set.owner(p) else {
            return Ok(Formula::impossible());
        };
        let mut so_far = None;
        for record in problem.set.records() {
            if record.procedure() == p {
                let formula = self.body_formula(problem.table, record.body())?;
                so_far = Some(combine(so_far, owner, formula)?);
            }
        }
        Ok(so_far.unwrap_or(Formula::impossible()))
    }

    /// The next round, or the first procedure whose formula would have a clause too many.
    pub(crate) fn next(&self, problem: &Problem<'_>) -> Result<Round, SolveFault>
        ensures { round_viewed result ≡ round_answer (next_round 64 (entries problem.now.set.now) (view problem.now.table.now) (formulas_of self.now)) }
    {
        let mut formulas = [Formula::impossible(); PROCEDURES as usize];
        for (p, formula) in formulas.iter_mut().enumerate() {
            let p = p as Procedure;
            // `map_err` and `?` were tried, and the loop's proof did not close: it lacks what the slot lends back.
            let Ok(next) = self.next_formula(problem, p) else {
                return Err(SolveFault::TooManyClauses(p));
            };
            *formula = next;
        }
        Ok(Round { formulas })
    }
}

/// The first body is combined with nothing, each later one with what there is so far.
fn combine(so_far: Option<Formula>, owner: Owner, formula: Formula) -> Result<Formula, Overflow>
    ensures { found result ≡ mixed_with 64 owner (option_map formula_list so_far) (formula_list formula) }
{
    match (so_far, owner) {
        (None, _) => Ok(formula),
        (Some(before), Owner::Station) => before.both(&formula),
        (Some(before), Owner::Field) => before.either(&formula),
    }
}
