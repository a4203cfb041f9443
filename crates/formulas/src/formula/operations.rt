//! "And" and "or" of formulas, and the two simplest ones.
ghost use Rattle.std.specs.Prelude.{◌≡◌, IfOk, nat_eq};
ghost use Rattle.formulas.specs.Formulas.{both, either, impossible, neutral};
ghost use Rattle.formulas.specs.FormulaViews.{formula_list, found, And, Or, ToldApart};
ghost use Rattle.std.specs.Cmp.Rules.{comparing};
ghost use Rattle.std.specs.Cmp.Lexicographic.{pointwise};
ghost use Rattle.std.specs.Ordering.{on};
ghost use Rattle.std.proofs.Common.{rules};

use crate::clauses::Clauses;
use crate::fault::Overflow;
use crate::formula::Formula;
use foundation::effect_set::EffectSet;

impl Formula {
    /// The formula that meets no set: its one clause has no members.
    pub(crate) fn impossible() -> Formula
        ensures { formula_list result ≡ impossible }
    {
        Formula {
            clauses: Clauses::one(EffectSet::empty()),
        }
    }

    /// The formula that meets the sets with the neutral effect.
    pub(crate) fn neutral() -> Formula
        ensures { formula_list result ≡ neutral }
    {
        Formula {
            clauses: Clauses::one(EffectSet::empty().with(0)),
        }
    }

    pub fn clauses(&self) -> &[EffectSet]
        ensures { result.now ≡ formula_list self.now }
    {
        self.clauses.as_slice()
    }

    /// The formula that meets what both meet.
    pub(crate) fn both(&self, other: &Formula) -> Result<Formula, Overflow>
        ensures value { found result ≡ both 64 (formula_list self.now) (formula_list other.now) }
        ensures means { IfOk result (λ f. And (formula_list self.now) (formula_list other.now) (formula_list f)) }
    {
        let mut clauses = self.clauses;
        clauses.offer_all(other.clauses())?;
        Ok(Formula { clauses })
    }

    /// The formula that meets what one of the two meets.
    pub(crate) fn either(&self, other: &Formula) -> Result<Formula, Overflow>
        ensures value { found result ≡ either 64 (formula_list self.now) (formula_list other.now) }
        ensures means { IfOk result (λ f. Or (formula_list self.now) (formula_list other.now) (formula_list f)) }
    {
        let mut clauses = Clauses::none();
        // A form of this project: both loops are left by their label, with the error.
        'unions: {
            for k in self.clauses() {
                for l in other.clauses() {
                    if let Err(overflow) = clauses.offer(k.union(*l)) {
                        break 'unions Err(overflow);
                    }
                }
            }
            Ok(Formula { clauses })
        }
    }
}

/// Formulas are equal exactly where they meet the same sets. This is written out: a derived equality
/// would look at unused cells, and could not promise it.
impl PartialEq for Formula {
    ghost eq = { on formula_list (pointwise nat_eq) };

    ghost laws = { Prim.search (comparing, rules) };

    fn eq(&self, other: &Formula) -> bool
        ensures value { result ≡ on formula_list (pointwise nat_eq) self.now other.now }
        ensures told { ToldApart (formula_list self.now) (formula_list other.now) result }
    {
        self.clauses() == other.clauses()
    }
}
