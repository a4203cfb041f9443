//! Refusals: what was wrong, and how it is told outside, by number, layer and place.
ghost use Rattle.std.specs.Prelude.{◌≡◌};
ghost use Rattle.rules.specs.Refusals.{rule_refusal, effects_refusal};

use crate::table::MOST_EFFECTS;
use foundation::refusal::{Layer, Refusal};

/// Why a rule was not made.
#[derive(Clone, Copy)]
pub enum RuleFault {
    /// The bytes of a chart are not whole records, or too many; with how many whole ones there are.
    ChartLength(usize),
    /// The first record of a chart that is neither an arrow nor a final state.
    ChartRecord(usize),
    /// The modulus of a count is not 1 to 64.
    Modulus,
    /// The weights of a count are not 1 to 16.
    WeightCount,
    /// The first weight of a count that is not below the modulus.
    Weight(u8),
    /// The mask of a count permits a residue that is not below the modulus.
    Mask,
}

impl From<RuleFault> for Refusal {
    ghost from_gives = { λ f r. r ≡ rule_refusal f };

    fn from(fault: RuleFault) -> Refusal {
        let place = match fault {
            RuleFault::ChartLength(whole) => whole,
            RuleFault::ChartRecord(record) => record,
            RuleFault::Modulus => 0,
            RuleFault::WeightCount => 1,
            RuleFault::Weight(i) => 2 + usize::from(i),
            RuleFault::Mask => 18,
        };
        Refusal {
            number: 5,
            layer: Layer::Rule,
            place,
        }
    }
}

/// Why a rule's effects were not numbered.
#[derive(Clone, Copy)]
pub enum EffectsFault {
    /// There are more than 64 effects.
    TooMany,
    /// The slice has fewer than 64 entries; with how many it has.
    ShortSlice(usize),
}

impl From<EffectsFault> for Refusal {
    ghost from_gives = { λ f r. r ≡ effects_refusal f };

    fn from(fault: EffectsFault) -> Refusal {
        let (number, place) = match fault {
            EffectsFault::TooMany => (6, MOST_EFFECTS),
            EffectsFault::ShortSlice(entries) => (7, entries),
        };
        Refusal {
            number,
            layer: Layer::Effects,
            place,
        }
    }
}
