//! One formula after an effect, or after another formula.
//!
//! A number that is none of the table's effects counts as absent.
ghost use Rattle.std.specs.Prelude.{◌≡◌, IfOk};
ghost use Rattle.foundation.specs.Sets.{members};
ghost use Rattle.rules.specs.Surveys.{view};
ghost use Rattle.formulas.specs.Formulas.{joined, shift, or_after, then, impossible};
ghost use Rattle.formulas.specs.FormulaViews.{formula_list, found, After, Composed};

use crate::clauses::Clauses;
use crate::fault::Overflow;
use crate::formula::Formula;
use foundation::effect_set::{EffectNumber, EffectSet};
use rules::table::EffectTable;

/// The joins of `e` with the members of a clause.
fn joins(table: &EffectTable, e: EffectNumber, clause: EffectSet) -> EffectSet
    ensures { result ≡ joined (view table.now) e clause }
{
    let mut joined = EffectSet::empty();
    for member in clause {
        if let Some(join) = table.join(e, member) {
            joined = joined.with(join);
        }
    }
    joined
}

impl Formula {
    /// The formula after the effect `e`.
    pub(crate) fn shift(&self, table: &EffectTable, e: EffectNumber) -> Result<Formula, Overflow>
        ensures value { found result ≡ shift 64 (view table.now) e (formula_list self.now) }
        ensures means { IfOk result (λ f. After (view table.now) e (formula_list self.now) (formula_list f)) }
    {
        let mut clauses = Clauses::none();
        for clause in self.clauses() {
            clauses.offer(joins(table, e, *clause))?;
        }
        Ok(Formula { clauses })
    }

    /// The formula after whichever of the effects the field takes.
    fn after_one_of(&self, table: &EffectTable, effects: EffectSet) -> Result<Formula, Overflow>
        ensures { found result ≡ or_after 64 (view table.now) (formula_list self.now) impossible (members effects) }
    {
        let mut after = Formula::impossible();
        for e in effects {
            if usize::from(e) < table.effects() {
                let shifted = self.shift(table, e)?;
                after = after.either(&shifted)?;
            }
        }
        Ok(after)
    }

    /// This formula, and then `next`.
    pub(crate) fn then(&self, table: &EffectTable, next: &Formula) -> Result<Formula, Overflow>
        ensures value { found result ≡ then 64 (view table.now) (formula_list self.now) (formula_list next.now) }
        ensures means { IfOk result (λ f. Composed (view table.now) (formula_list self.now) (formula_list next.now) (formula_list f)) }
    {
        let mut clauses = Clauses::none();
        for effects in self.clauses() {
            let after = next.after_one_of(table, *effects)?;
            clauses.offer_all(after.clauses())?;
        }
        Ok(Formula { clauses })
    }
}
