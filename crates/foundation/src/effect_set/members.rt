//! The members of a set, one by one.
ghost use Rattle.std.specs.Prelude.{◌≡◌, ℕ, length, Some};
ghost use Rattle.std.specs.Iterator.{YieldsFirst, item_count};
ghost use Rattle.std.specs.Iterator.Runs.{YieldsInOrder};
ghost use Rattle.foundation.specs.Sets.{members};

use crate::effect_set::{EffectNumber, EffectSet};
use std::marker::Model;

/// The members that are still to come, lowest first. Clauses see it as the set of these.
#[derive(Clone, Copy)]
pub struct Members {
    rest: EffectSet,
}

impl Model for Members {
    ghost Value = { ℕ };

    ghost view = { λ m. m.rest };

    ghost inverse = { λ s. record { rest = s } };
}

impl Iterator for Members {
    type Item = EffectNumber;

    ghost next_gives = { YieldsFirst members };

    ghost remaining = { item_count members };

    fn next(&mut self) -> Option<EffectNumber> {
        let member = self.rest.first()?;
        self.rest = self.rest.without_first();
        Some(member)
    }

    /// Exactly as many as there are.
    fn size_hint(&self) -> (usize, Option<usize>)
        ensures exact { result ≡ (length (members self.now), Some (length (members self.now))) }
    {
        let len = self.rest.len() as usize;
        (len, Some(len))
    }
}

impl IntoIterator for EffectSet {
    type Item = EffectNumber;

    type IntoIter = Members;

    ghost into_iter_gives = { λ s it. (it ≡ s) × YieldsInOrder (YieldsFirst members) members };

    fn into_iter(self) -> Members {
        Members { rest: self }
    }
}
