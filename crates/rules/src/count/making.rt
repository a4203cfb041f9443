//! Making a count from its numbers.
ghost use Rattle.std.specs.Result.{MatchResult};
ghost use Rattle.rules.specs.Counting.{Counts, Countable, Uncountable};
ghost use Rattle.rules.specs.contracts.count.CountOrderRule.TheImpl.{ghosts};

use crate::count::Count;
use crate::fault::RuleFault;
use crate::rule::MOST_COMMANDS;
use foundation::bounded::Bounded;

impl Count {
    /// A count from its modulus, one weight for each command, and the mask of permitted residues.
    pub fn new(modulus: u8, weights: &[u8], permitted: u64) -> Result<Count, RuleFault>
        ensures made { MatchResult result (λ x. Countable modulus weights.now permitted × Counts modulus weights.now permitted (ghosts.meaning x)) (λ f. Uncountable modulus weights.now permitted f) }
    {
        if modulus == 0 || modulus > 64 {
            return Err(RuleFault::Modulus);
        }
        let kept = Bounded::<u8, MOST_COMMANDS>::from_slice(weights, 0).ok_or(
            RuleFault::WeightCount,
        )?;
        if weights.is_empty() {
            return Err(RuleFault::WeightCount);
        }
        if let Some(i) = weights.iter().position(|weight| *weight >= modulus) {
            return Err(RuleFault::Weight(i as u8));
        }
        if modulus < 64 && permitted >> modulus != 0 {
            return Err(RuleFault::Mask);
        }
        Ok(Count {
            modulus,
            weights: kept,
            permitted,
        })
    }
}
