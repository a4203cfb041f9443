//! Effect tables: what they answer, and what becomes of the slice.
use crate::expect::{check_refused, made, refusal, table_of, told};
use foundation::refusal::Layer;
use rules::count::Count;
use rules::pair::Pair;
use rules::rule::OrderRule;
use rules::table::EffectTable;
use std::test::Fail;

#[test]
fn joins_modulo_three(rt: HostRuntime) -> Result<(), Fail> {
    let table = table_of(rt.alloc(), &made(Count::new(3, &[1], 1))?)?;
    assert_eq!(rt; table.join(1, 2), Some(0));
    assert_eq!(rt; table.join(2, 2), Some(1));
    assert_eq!(rt; table.join(3, 0), None);
    assert_eq!(rt; table.join(0, 3), None);
    Ok(())
}

#[test]
fn numbers_the_commands(rt: HostRuntime) -> Result<(), Fail> {
    let table = table_of(rt.alloc(), &made(Count::new(3, &[1], 1))?)?;
    assert_eq!(rt; table.commands(), 1);
    assert_eq!(rt; table.command(0), Some(1));
    assert_eq!(rt; table.command(1), None);
    Ok(())
}

/// The sums are met in the order 0, 4, 3, 2, 1.
#[test]
fn numbers_effects_as_they_are_met(rt: HostRuntime) -> Result<(), Fail> {
    let table = table_of(rt.alloc(), &made(Count::new(5, &[4, 0], 1))?)?;
    assert_eq!(rt; table.command(0), Some(1));
    assert_eq!(rt; table.command(1), Some(0));
    assert_eq!(rt; table.join(1, 1), Some(2));
    assert_eq!(rt; table.join(3, 4), Some(2));
    Ok(())
}

#[test]
fn refuses_a_short_slice_and_keeps_it(rt: HostRuntime) -> Result<(), Fail> {
    let count = made(Count::new(3, &[1], 1))?;
    let mut slice = [200; 63];
    check_refused(
        &rt,
        EffectTable::of(&count, &mut slice),
        told(7, Layer::Effects, 63),
    )?;
    assert_eq!(rt; slice, [200; 63]);
    Ok(())
}

#[test]
fn keeps_the_slice_past_the_effects(rt: HostRuntime) -> Result<(), Fail> {
    let count = made(Count::new(3, &[1], 1))?;
    let mut slice = [200; 70];
    assert_eq!(rt; made(EffectTable::of(&count, &mut slice))?.effects(), 3);
    assert_eq!(rt; &slice[0..3], [0, 1, 2].as_slice());
    assert_eq!(rt; &slice[3..70], [200; 67].as_slice());
    Ok(())
}

#[test]
fn keeps_the_slice_past_64_refused_effects(rt: HostRuntime) -> Result<(), Fail> {
    let eights = made(Count::new(8, &[1], 1))?;
    let nines = made(Count::new(9, &[1], 1))?;
    let mut slice = [(200, 200); 70];
    let refused = EffectTable::of(&Pair::new(eights, nines), &mut slice);
    assert_eq!(rt; refusal(refused)?.number, 6);
    assert_eq!(rt; slice[63], (7, 0));
    assert_eq!(rt; &slice[64..70], [(200, 200); 6].as_slice());
    Ok(())
}
