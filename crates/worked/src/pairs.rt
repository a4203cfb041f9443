//! Pairs: what they permit and their effects.
use crate::expect::{check_refused, made, table_of, told};
use foundation::refusal::Layer;
use rules::count::Count;
use rules::lists::{Judgement, judge};
use rules::pair::Pair;
use rules::rule::OrderRule;
use rules::table::EffectTable;
use std::test::Fail;

/// Permits the lists of command 0 whose length the modulus divides.
fn multiples(modulus: u8) -> Result<Count, Fail> {
    made(Count::new(modulus, &[1], 1))
}

#[test]
fn forbids_what_either_forbids(rt: HostRuntime) -> Result<(), Fail> {
    let pair = Pair::new(multiples(2)?, multiples(3)?);
    assert_eq!(rt; judge(&pair, &[0; 6]), Judgement::Permitted);
    assert_eq!(rt; judge(&pair, &[0; 3]), Judgement::Forbidden);
    assert_eq!(rt; judge(&pair, &[0; 2]), Judgement::Forbidden);
    assert_eq!(rt; judge(&pair, &[0]), Judgement::Forbidden);
    Ok(())
}

#[test]
fn has_the_commands_of_both(rt: HostRuntime) -> Result<(), Fail> {
    let three = made(Count::new(5, &[1, 1, 1], 0b11111))?;
    let two = made(Count::new(5, &[1, 1], 0b11111))?;
    let pair = Pair::new(three, two);
    assert_eq!(rt; table_of(rt.alloc(), &pair)?.commands(), 2);
    assert_eq!(rt; judge(&pair, &[1]), Judgement::Permitted);
    assert_eq!(rt; judge(&pair, &[2]), Judgement::Neither);
    Ok(())
}

#[test]
fn has_63_effects_of_7_and_9(rt: HostRuntime) -> Result<(), Fail> {
    let pair = Pair::new(multiples(7)?, multiples(9)?);
    assert_eq!(rt; table_of(rt.alloc(), &pair)?.effects(), 63);
    Ok(())
}

/// There are 72 effects. Met first, and all different, are those of 0 to 63 commands.
#[test]
fn has_too_many_effects_of_8_and_9(rt: HostRuntime) -> Result<(), Fail> {
    let pair = Pair::new(multiples(8)?, multiples(9)?);
    let mut slice = [(255, 255); 64];
    check_refused(
        &rt,
        EffectTable::of(&pair, &mut slice),
        told(6, Layer::Effects, 64),
    )?;
    for (effect, len) in slice.iter().zip(0..64u8) {
        assert_eq!(rt; *effect, (len % 8, len % 9));
    }
    Ok(())
}

#[test]
fn has_30_effects_of_2_and_3_and_5(rt: HostRuntime) -> Result<(), Fail> {
    let left = Pair::new(Pair::new(multiples(2)?, multiples(3)?), multiples(5)?);
    let right = Pair::new(multiples(2)?, Pair::new(multiples(3)?, multiples(5)?));
    assert_eq!(rt; table_of(rt.alloc(), &left)?.effects(), 30);
    assert_eq!(rt; table_of(rt.alloc(), &right)?.effects(), 30);
    Ok(())
}
