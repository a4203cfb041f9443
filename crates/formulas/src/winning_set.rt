//! Winning sets: the effects after which the field wins a list of symbols.
ghost use Rattle.std.specs.Prelude.{◌≡◌, ℕ, Bool, ◌^◌, ◌<◌, List, Some};
ghost use Rattle.foundation.specs.Bits.{has};
ghost use Rattle.rules.specs.Surveys.{view};
ghost use Rattle.formulas.specs.Equations.{SettledLists, WonByTrees};
ghost use Rattle.formulas.specs.Formulas.{meets, leading};
ghost use Rattle.formulas.specs.Symbols.{Entry};
ghost use Rattle.formulas.specs.Winning.{assigned, effects_where, after_effect, before_command, before_procedure, before_symbol, winning};

use crate::symbol::{Procedure, Symbol};
use foundation::effect_set::{EffectNumber, EffectSet};
use rules::table::EffectTable;

/// A list of clauses for each procedure, of any kind.
pub trait ClauseLists {
    ghost lists: { Self → ℕ → List ℕ };

    /// Whether every clause of a procedure has a member in the set.
    fn all_meet(&self, p: Procedure, set: EffectSet) -> bool
        ensures { result ≡ meets (has set) (lists self.now p) };
}

/// Whether every clause has a member in the set.
pub(crate) fn each_meets(clauses: &[EffectSet], set: EffectSet) -> bool
    ensures { result ≡ meets (has set) clauses.now }
{
    clauses.iter().all(|clause| clause.meets(set))
}

/// The effects of a table that pass a test.
fn effects_where<F: Fn(EffectNumber) -> bool>(table: &EffectTable, passes: F) -> EffectSet
    requires { (k : ℕ) → k < (view table.now).count → F.pre passes k }
    ensures { (f : ℕ → Bool) → ((k : ℕ) → k < (view table.now).count → (r : Bool) → F.post passes k r → r ≡ f k) → result ≡ effects_where (view table.now) f }
{
    let mut passing = EffectSet::empty();
    for k in 0..table.effects() as EffectNumber {
        if passes(k) {
            passing = passing.with(k);
        }
    }
    passing
}

/// Whether the effect `e` and then `k` lead into the set.
fn leads(table: &EffectTable, e: EffectNumber, k: EffectNumber, set: EffectSet) -> bool
    ensures { result ≡ leading (view table.now) (has set) e k }
{
    table.join(e, k).is_some_and(|join| set.contains(join))
}

/// The effects that lead into the set after `e`.
fn after(table: &EffectTable, e: EffectNumber, set: EffectSet) -> EffectSet
    requires { e < (view table.now).count }
    ensures { result ≡ after_effect (view table.now) set e }
{
    effects_where(table, |k| leads(table, e, k, set))
}

/// The effects after which `k` leads into the set.
fn before(table: &EffectTable, k: EffectNumber, set: EffectSet) -> EffectSet
    requires { k < (view table.now).count }
    ensures { result ≡ before_command (view table.now) (Some k) set }
{
    effects_where(table, |e| leads(table, e, k, set))
}

/// Lists of clauses for the procedures, over the effects of a table.
#[derive(Clone, Copy)]
struct Assignment<'a, L> {
    table: &'a EffectTable,
    lists: &'a L,
}

impl<L: ClauseLists> Assignment<'_, L> {
    /// The effects after which the field wins a procedure and comes into the set.
    fn before_procedure(&self, p: Procedure, set: EffectSet) -> EffectSet
        ensures { result ≡ before_procedure (view self.now.table.now) (assigned (L.ClauseLists.lists self.now.lists.now) p) set }
    {
        effects_where(
            self.table,
            |e| self.lists.all_meet(p, after(self.table, e, set)),
        )
    }

    /// The effects after which the field wins a symbol and comes into the set.
    fn before_symbol(&self, symbol: Symbol, set: EffectSet) -> EffectSet
        ensures { result ≡ before_symbol (view self.now.table.now) (assigned (L.ClauseLists.lists self.now.lists.now)) symbol set }
    {
        match symbol {
            Symbol::Command(c) => match self.table.command(c) {
                Some(effect) => before(self.table, effect, set),
                None => EffectSet::empty(),
            },
            Symbol::Procedure(p) => self.before_procedure(p, set),
        }
    }
}

/// The effects after which the field wins the list, where the set `target` is forbidden.
pub fn winning_set<L: ClauseLists>(
    table: &EffectTable,
    lists: &L,
    target: EffectSet,
    list: &[Symbol],
) -> EffectSet
    ensures value { result ≡ winning (view table.now) (assigned (L.ClauseLists.lists lists.now)) target list.now }
    ensures trees { (rs : List Entry) → SettledLists rs (view table.now) (L.ClauseLists.lists lists.now) → target < 2 ^ (view table.now).count → WonByTrees rs (view table.now) target list.now result }
{
    let assignment = Assignment { table, lists };
    let mut winning = target;
    for symbol in list.iter().rev() {
        winning = assignment.before_symbol(*symbol, winning);
    }
    winning
}
