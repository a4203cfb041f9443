//! What the examples share.
use foundation::refusal::{Layer, Refusal};
use rules::rule::OrderRule;
use rules::table::EffectTable;
use std::alloc::Global;
use std::process::Abort;
use std::test::Fail;

/// What was made; a refusal fails the test.
pub fn made<T, E: Drop>(outcome: Result<T, E>) -> Result<T, Fail> {
    outcome.map_err(|_| Fail::new("refused"))
}

/// Why nothing was made; acceptance fails the test.
pub fn refusal<T: Drop, F: Into<Refusal>>(outcome: Result<T, F>) -> Result<Refusal, Fail> {
    match outcome {
        Ok(_) => Err(Fail::new("accepted")),
        Err(fault) => Ok(fault.into()),
    }
}

/// Checks that nothing was made, and how the refusal is told.
pub fn check_refused<T: Drop, F: Into<Refusal>>(
    rt: &impl Abort,
    outcome: Result<T, F>,
    expected: Refusal,
) -> Result<(), Fail> {
    assert_eq!(rt; refusal(outcome)?, expected);
    Ok(())
}

/// How a refusal is told.
pub fn told(number: u8, layer: Layer, place: usize) -> Refusal {
    Refusal {
        number,
        layer,
        place,
    }
}

/// The effect table of a rule, made in a slice of its own.
pub fn table_of<R: OrderRule>(heap: Global, rule: &R) -> Result<EffectTable, Fail>
where
    R::Effect: Clone,
{
    let mut slice = vec![in heap; rule.neutral(); 64]?;
    made(EffectTable::of(rule, slice.as_mut_slice()))
}

/// Checks how many effects a rule has, and which of them break it, written as a number.
pub fn check_effects<R: OrderRule>(
    rt: &impl Abort,
    heap: Global,
    rule: &R,
    effects: usize,
    breaking: &str,
) -> Result<(), Fail>
where
    R::Effect: Clone,
{
    let table = table_of(heap, rule)?;
    assert_eq!(rt; table.effects(), effects);
    assert_eq!(rt; table.breaking().to_string(heap)?.as_str(), breaking);
    Ok(())
}
