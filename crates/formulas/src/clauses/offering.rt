//! Offering a clause: "and this clause too".
ghost use Rattle.std.specs.Prelude.{◌≡◌, ◌+◌, ◌<◌, ◌≤◌, [], ◌∷◌, ◌++◌, length, OnOk, OnErr, MatchResult};
ghost use Rattle.foundation.specs.Bounds.{items};
ghost use Rattle.formulas.specs.Clauses.{clause_list, Spots, entering, Offered, AndAlso, SmallestOf, OfferedAll};
ghost use Rattle.formulas.specs.Formulas.{outside};

use crate::clauses::{Clauses, MOST_CLAUSES};
use crate::fault::Overflow;
use foundation::bounded::{Bounded, Full};
use foundation::effect_set::EffectSet;

impl Clauses {
    pub(crate) fn none() -> Clauses
        ensures { clause_list result ≡ [] }
    {
        Clauses {
            sets: Bounded::empty(EffectSet::empty()),
        }
    }

    pub(crate) fn one(c: EffectSet) -> Clauses
        ensures { clause_list result ≡ c ∷ [] }
    {
        let mut sets = Bounded::empty(c);
        sets.push(c).unwrap();
        Clauses { sets }
    }

    pub(crate) fn as_slice(&self) -> &[EffectSet]
        ensures { result.now ≡ clause_list self.now }
    {
        self.sets.as_slice()
    }

    /// The place of `c` in the rising order, or `None` where a clause lies within `c`, which then says
    /// nothing new. The search ends at the first such clause. None comes after a clause above `c`, since
    /// what lies within `c` is no larger a number.
    fn place(&self, c: EffectSet) -> Option<usize>
        ensures { Spots c (clause_list self.now) result }
    {
        // A form of this project: the search breaks with the place that it found, or with none.
        'search: {
            for (i, clause) in self.as_slice().iter().enumerate() {
                if clause.is_within(c) {
                    break 'search None;
                }
                if c < *clause {
                    break 'search Some(i);
                }
            }
            Some(self.sets.len())
        }
    }

    /// The clauses with `c` at its place and without those that contain it, unless that is more than
    /// there is room for.
    fn entered(&self, at: usize, c: EffectSet) -> Result<Bounded<EffectSet, MOST_CLAUSES>, Overflow>
        requires { at ≤ length (items self.now.sets) }
        ensures { MatchResult result (λ b. items b ≡ entering c (clause_list self.now) at) (λ _. 64 < length (entering c (clause_list self.now) at)) }
    {
        let (front, rest) = self.as_slice().split_at(at);
        let mut next = Bounded::<EffectSet, MOST_CLAUSES>::from_slice(front, c).ok_or(Overflow)?;
        next.push(c)?;
        add_outside(&mut next, rest, c)?;
        Ok(next)
    }

    /// Takes `c` as one clause more, and lets go of those that contain it. Nothing changes where a
    /// clause lies within `c`, nor where there is no room.
    pub(crate) fn offer(&mut self, c: EffectSet) -> Result<(), Overflow>
        ensures value { Offered c (clause_list self.old) (clause_list self.new) result }
        ensures means { OnOk result (AndAlso (clause_list self.old) c (clause_list self.new)) }
        ensures smallest { OnOk result (SmallestOf (clause_list self.old) c (clause_list self.new)) }
    {
        if let Some(at) = self.place(c) {
            self.sets = self.entered(at, c)?;
        }
        Ok(())
    }

    /// Offers each clause of a list in order.
    pub(crate) fn offer_all(&mut self, list: &[EffectSet]) -> Result<(), Overflow>
        ensures { OfferedAll (clause_list self.old) list.now (clause_list self.new) result }
    {
        for clause in list {
            self.offer(*clause)?;
        }
        Ok(())
    }
}

/// Adds the clauses that do not contain `c`, as far as there is room for them.
fn add_outside(
    next: &mut Bounded<EffectSet, MOST_CLAUSES>,
    rest: &[EffectSet],
    c: EffectSet,
) -> Result<(), Full>
    ensures ok { OnOk result (items next.new ≡ items next.old ++ outside c rest.now) }
    ensures err { OnErr result (64 < length (items next.old) + length (outside c rest.now)) }
{
    for clause in rest {
        if !c.is_within(*clause) {
            next.push(*clause)?;
        }
    }
    Ok(())
}
