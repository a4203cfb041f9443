//! Making the effect table of any rule.
ghost use Rattle.std.specs.Prelude.{◌≡◌, map, length, IsSome};
ghost use Rattle.rules.specs.Behaviours.{behaviour};
ghost use Rattle.foundation.specs.Bounds.{items};
ghost use Rattle.rules.specs.Register.{place};
ghost use Rattle.rules.specs.Surveys.{view, viewed, tabled, slice_after, Surveyed, AllMet};
ghost use Rattle.rules.specs.Tables.{numbered, join_row, effects_table};

use crate::fault::EffectsFault;
use crate::register::{find, register};
use crate::rule::{MOST_COMMANDS, OrderRule};
use crate::table::{EffectTable, MOST_EFFECTS, Row};
use foundation::bounded::Bounded;
use foundation::effect_set::{EffectNumber, EffectSet};

impl EffectTable {
    /// Numbers the effects of a rule in the order in which they are met. The slice receives them
    /// at its front.
    pub fn of<R: OrderRule>(rule: &R, slice: &mut [R::Effect]) -> Result<EffectTable, EffectsFault>
        ensures value { viewed result ≡ tabled (behaviour (R.OrderRule.meaning rule.now)) (length slice.old) }
        ensures slice { slice.new ≡ slice_after (R.OrderRule.meaning rule.now) slice.old }
        ensures numbers { Surveyed (R.OrderRule.meaning rule.now) slice.old slice.new result }
    {
        if slice.len() < MOST_EFFECTS {
            return Err(EffectsFault::ShortSlice(slice.len()));
        }
        let count = register(rule, slice).ok_or(EffectsFault::TooMany)?;
        let met = Met {
            rule,
            effects: &slice[..count],
        };
        Ok(met.table())
    }
}

/// A rule, and all effects that it has: the number of an effect is its place among them.
#[derive(Drop)]
struct Met<'a, R: OrderRule> {
    rule: &'a R,
    effects: &'a [R::Effect],
    ghost all: { ∥ AllMet (R.OrderRule.meaning rule.now) effects.now ∥₁ },
}

impl<R: OrderRule> Met<'_, R> {
    fn table(&self) -> EffectTable
        ensures { view result ≡ effects_table (R.OrderRule.meaning self.now.rule.now) self.now.effects.now }
    {
        EffectTable {
            numbers: self.number_commands(),
            joins: self.join_all(),
            breaking: self.breaking_set(),
        }
    }

    /// The number of an effect that was met.
    fn number_of(&self, e: R::Effect) -> EffectNumber
        requires own { (R.OrderRule.meaning self.now.rule.now).own e }
        requires known { IsSome (place (R.OrderRule.meaning self.now.rule.now).same 0 self.now.effects.now e) }
        ensures { result ≡ numbered (R.OrderRule.meaning self.now.rule.now).same self.now.effects.now e }
    {
        find(self.rule, self.effects, e).unwrap() as EffectNumber
    }

    fn number_commands(&self) -> Bounded<EffectNumber, MOST_COMMANDS>
        ensures { items result ≡ (effects_table (R.OrderRule.meaning self.now.rule.now) self.now.effects.now).numbers }
    {
        let mut numbers = Bounded::empty(0);
        for c in 0..self.rule.commands() {
            let effect = self.rule.command(c).unwrap();
            numbers.push(self.number_of(effect)).unwrap();
        }
        numbers
    }

    /// The numbers of `a` joined with each effect.
    fn join_each(&self, a: R::Effect) -> Row
        requires known { IsSome (place (R.OrderRule.meaning self.now.rule.now).same 0 self.now.effects.now a) }
        requires own { (R.OrderRule.meaning self.now.rule.now).own a }
        ensures { items result ≡ join_row (R.OrderRule.meaning self.now.rule.now).same (R.OrderRule.meaning self.now.rule.now).join self.now.effects.now a }
    {
        let mut row = Bounded::empty(0);
        for b in self.effects {
            row.push(self.number_of(self.rule.join(a, *b))).unwrap();
        }
        row
    }

    /// A row for each effect.
    fn join_all(&self) -> Bounded<Row, MOST_EFFECTS>
        ensures { map items (items result) ≡ (effects_table (R.OrderRule.meaning self.now.rule.now) self.now.effects.now).joins }
    {
        let mut joins = Bounded::empty(Bounded::empty(0));
        for a in self.effects {
            joins.push(self.join_each(*a)).unwrap();
        }
        joins
    }

    /// The numbers of the effects that break the rule.
    // Winning sets have a like loop, `effects_where`. One for both would be public and ask that its test may
    // be called, and no public function here asks anything of its callers.
    fn breaking_set(&self) -> EffectSet
        ensures { result ≡ (effects_table (R.OrderRule.meaning self.now.rule.now) self.now.effects.now).breaking }
    {
        let mut breaking = EffectSet::empty();
        for (i, e) in self.effects.iter().enumerate() {
            if self.rule.breaks(*e) {
                breaking = breaking.with(i as EffectNumber);
            }
        }
        breaking
    }
}
