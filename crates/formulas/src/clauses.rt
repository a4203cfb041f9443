//! Clauses as they gather: smallest ones in rising order.
ghost use Rattle.std.specs.Prelude.{◌≡◌, true};
ghost use Rattle.std.specs.List.Sorted.{IsStrictlyIncreasing};
ghost use Rattle.foundation.specs.Bounds.{items};
ghost use Rattle.formulas.specs.Formulas.{none_within};

use foundation::bounded::Bounded;
use foundation::effect_set::EffectSet;

mod offering;

/// How many clauses there is room for.
pub(crate) const MOST_CLAUSES: usize = 64;

/// 0 to 64 clauses, none within another, in rising order. Formulas are built in it.
#[derive(Clone, Copy)]
pub(crate) struct Clauses {
    sets: Bounded<EffectSet, MOST_CLAUSES>,
    ghost rising: { IsStrictlyIncreasing (items sets) },
    ghost apart: { none_within (items sets) ≡ true },
}
