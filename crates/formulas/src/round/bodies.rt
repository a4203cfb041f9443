//! The formula of a list of symbols, by the formulas of a round.
ghost use Rattle.std.specs.Prelude.{◌≡◌};
ghost use Rattle.rules.specs.Surveys.{view};
ghost use Rattle.formulas.specs.FormulaViews.{formula_list, found};
ghost use Rattle.formulas.specs.RoundViews.{formulas_of};
ghost use Rattle.formulas.specs.Rounds.{first_round, formula_at, in_front, body_formula};

use crate::fault::Overflow;
use crate::formula::Formula;
use crate::round::Round;
use crate::symbol::{PROCEDURES, Procedure, Symbol};
use rules::table::EffectTable;

impl Round {
    /// Round 0: every procedure is impossible for the field.
    pub(crate) fn first() -> Round
        ensures { formulas_of result ≡ first_round }
    {
        Round {
            formulas: [Formula::impossible(); PROCEDURES as usize],
        }
    }

    /// The formula of a procedure; a number that is none's has the impossible one.
    pub(crate) fn formula(&self, p: Procedure) -> Formula
        ensures { formula_list result ≡ formula_at (formulas_of self.now) p }
    {
        self.formulas
            .get(usize::from(p))
            .copied()
            .unwrap_or(Formula::impossible())
    }

    /// The formula of a symbol and what comes after it.
    fn in_front(
        &self,
        table: &EffectTable,
        symbol: Symbol,
        rest: &Formula,
    ) -> Result<Formula, Overflow>
        ensures { found result ≡ in_front 64 (view table.now) (formulas_of self.now) symbol (formula_list rest.now) }
    {
        match symbol {
            Symbol::Command(c) => match table.command(c) {
                Some(effect) => rest.shift(table, effect),
                None => Ok(Formula::impossible()),
            },
            Symbol::Procedure(p) => self.formula(p).then(table, rest),
        }
    }

    /// The formula of a list of symbols, worked out from the last one to the first.
    pub(crate) fn body_formula(
        &self,
        table: &EffectTable,
        body: &[Symbol],
    ) -> Result<Formula, Overflow>
        ensures { found result ≡ body_formula 64 (view table.now) (formulas_of self.now) body.now }
    {
        let mut formula = Formula::neutral();
        for symbol in body.iter().rev() {
            formula = self.in_front(table, *symbol, &formula)?;
        }
        Ok(formula)
    }
}
