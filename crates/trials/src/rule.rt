//! Rules by their shape and parts, and what is tried under them.
use crate::fault::Fault;
use foundation::effect_set::EffectNumber;
use foundation::refusal::Refusal;
use rules::chart::Chart;
use rules::count::Count;
use rules::pair::Pair;
use rules::rule::OrderRule;
use std::alloc::Global;

mod reading;

/// A table has at most so many effects, and a set of effects so many places.
pub const MOST_EFFECTS: EffectNumber = rules::table::MOST_EFFECTS as EffectNumber;

/// What a chart is made from.
#[derive(Drop)]
pub struct ChartPart {
    bytes: Vec<u8>,
}

/// What a count is made from.
#[derive(Drop)]
pub struct CountPart {
    modulus: u8,
    permitted: u64,
    weights: Vec<u8>,
}

/// The shape of a rule, with the parts of its leaves from left to right.
#[derive(Drop)]
pub enum Shape {
    Chart(ChartPart),
    Count(CountPart),
    CountAndCount(CountPart, CountPart),
    ChartAndCount(ChartPart, CountPart),
    CountAndPair(CountPart, ChartPart, CountPart),
    PairAndCount(CountPart, CountPart, CountPart),
}

/// What is done with a rule, of whatever kind it is.
pub trait Trial {
    type Outcome;

    fn under<R: OrderRule>(&self, heap: Global, rule: &R) -> Result<Self::Outcome, Fault>
    where
        R::Effect: Clone;
}

impl Shape {
    /// Makes the rule and does the trial under it. The first leaf that is refused is told.
    pub fn run<T: Trial>(&self, heap: Global, trial: &T) -> Result<T::Outcome, Fault> {
        match self {
            Shape::Chart(a) => trial.under(heap, &a.make()?),
            Shape::Count(a) => trial.under(heap, &a.make()?),
            Shape::CountAndCount(a, b) => trial.under(heap, &Pair::new(a.make()?, b.make()?)),
            Shape::ChartAndCount(a, b) => trial.under(heap, &Pair::new(a.make()?, b.make()?)),
            Shape::CountAndPair(a, b, c) => {
                trial.under(heap, &Pair::new(a.make()?, Pair::new(b.make()?, c.make()?)))
            }
            Shape::PairAndCount(a, b, c) => {
                trial.under(heap, &Pair::new(Pair::new(a.make()?, b.make()?), c.make()?))
            }
        }
    }
}

impl ChartPart {
    fn make(&self) -> Result<Chart, Refusal> {
        Chart::new(self.bytes.as_slice()).map_err(Refusal::from)
    }
}

impl CountPart {
    fn make(&self) -> Result<Count, Refusal> {
        Count::new(self.modulus, self.weights.as_slice(), self.permitted).map_err(Refusal::from)
    }
}
