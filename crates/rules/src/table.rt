//! The effect table: what is known of a rule once its effects have numbers.
ghost use Rattle.std.specs.Prelude.{◌≤◌, length};
ghost use Rattle.foundation.specs.Bounds.{items};
ghost use Rattle.rules.specs.Views.{table_from, NumbersSome, Square};

use crate::rule::MOST_COMMANDS;
use foundation::bounded::Bounded;
use foundation::effect_set::{EffectNumber, EffectSet};

mod lookup;
mod making;

/// How many effects a table has at most: each has a place in a set of effect numbers.
pub const MOST_EFFECTS: usize = 64;

/// The numbers of one effect joined with each effect.
type Row = Bounded<EffectNumber, MOST_EFFECTS>;

#[derive(Drop)]
pub struct EffectTable {
    /// The number of each command's effect.
    numbers: Bounded<EffectNumber, MOST_COMMANDS>,
    /// A row for each effect.
    joins: Bounded<Row, MOST_EFFECTS>,
    breaking: EffectSet,
    ghost few: { length (items joins) ≤ 64 },
    ghost square: { Square (table_from numbers joins breaking) },
    ghost numbered: { ∥ NumbersSome (table_from numbers joins breaking) ∥₁ },
}
