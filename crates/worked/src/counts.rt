//! Counts: what they permit, their effects and their refusals.
use crate::expect::{check_effects, check_refused, made, told};
use foundation::refusal::Layer;
use rules::count::Count;
use rules::lists::{Judgement, judge};
use std::test::Fail;

#[test]
fn permits_lists_of_whole_threes(rt: HostRuntime) -> Result<(), Fail> {
    let count = made(Count::new(3, &[1], 1))?;
    assert_eq!(rt; judge(&count, &[]), Judgement::Permitted);
    assert_eq!(rt; judge(&count, &[0, 0, 0]), Judgement::Permitted);
    assert_eq!(rt; judge(&count, &[0]), Judgement::Forbidden);
    assert_eq!(rt; judge(&count, &[1]), Judgement::Neither);
    Ok(())
}

#[test]
fn has_three_effects_modulo_three(rt: HostRuntime) -> Result<(), Fail> {
    let count = made(Count::new(3, &[1], 1))?;
    check_effects(&rt, rt.alloc(), &count, 3, "6")
}

#[test]
fn refuses_a_modulus(rt: HostRuntime) -> Result<(), Fail> {
    check_refused(&rt, Count::new(0, &[0], 0), told(5, Layer::Rule, 0))?;
    check_refused(&rt, Count::new(65, &[0], 0), told(5, Layer::Rule, 0))
}

#[test]
fn refuses_too_few_and_too_many_weights(rt: HostRuntime) -> Result<(), Fail> {
    check_refused(&rt, Count::new(3, &[], 1), told(5, Layer::Rule, 1))?;
    check_refused(&rt, Count::new(3, &[0; 17], 1), told(5, Layer::Rule, 1))
}

#[test]
fn refuses_the_first_weight_not_below_the_modulus(rt: HostRuntime) -> Result<(), Fail> {
    check_refused(&rt, Count::new(3, &[3], 1), told(5, Layer::Rule, 2))?;
    check_refused(
        &rt,
        Count::new(3, &[2, 2, 4, 5], 1),
        told(5, Layer::Rule, 4),
    )?;
    let mut weights = [2; 16];
    weights[15] = 3;
    check_refused(&rt, Count::new(3, &weights, 1), told(5, Layer::Rule, 17))
}

#[test]
fn refuses_a_mask_beyond_the_modulus(rt: HostRuntime) -> Result<(), Fail> {
    check_refused(&rt, Count::new(3, &[1], 0b1000), told(5, Layer::Rule, 18))?;
    check_refused(
        &rt,
        Count::new(3, &[1], 0b10_0001),
        told(5, Layer::Rule, 18),
    )?;
    check_refused(&rt, Count::new(63, &[1], 1 << 63), told(5, Layer::Rule, 18))
}

#[test]
fn refuses_by_modulus_then_weights_then_mask(rt: HostRuntime) -> Result<(), Fail> {
    check_refused(&rt, Count::new(0, &[], 1), told(5, Layer::Rule, 0))?;
    check_refused(
        &rt,
        Count::new(65, &[65], u64::MAX),
        told(5, Layer::Rule, 0),
    )?;
    check_refused(&rt, Count::new(3, &[], 0b1000), told(5, Layer::Rule, 1))?;
    check_refused(
        &rt,
        Count::new(3, &[3; 17], 0b1000),
        told(5, Layer::Rule, 1),
    )?;
    check_refused(&rt, Count::new(3, &[3, 3], 0b1000), told(5, Layer::Rule, 2))?;
    check_refused(&rt, Count::new(3, &[2, 3], 0b1000), told(5, Layer::Rule, 3))
}

#[test]
fn accepts_the_largest_count(rt: HostRuntime) -> Result<(), Fail> {
    let count = made(Count::new(64, &[63; 16], u64::MAX))?;
    assert_eq!(rt; judge(&count, &[15]), Judgement::Permitted);
    assert_eq!(rt; judge(&count, &[16]), Judgement::Neither);
    check_effects(&rt, rt.alloc(), &count, 64, "0")
}
