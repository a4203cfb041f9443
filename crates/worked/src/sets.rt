//! Sets of effect numbers.
use foundation::effect_set::EffectSet;
use std::test::Fail;

#[test]
fn keeps_members_with_a_place(rt: HostRuntime) {
    let set = EffectSet::empty().with(63).with(3).with(64).with(3);
    assert!(rt; set.contains(3) && set.contains(63));
    assert!(rt; !set.contains(0) && !set.contains(64));
    assert_eq!(rt; set.len(), 2);
}

#[test]
fn takes_the_lowest_member_first(rt: HostRuntime) {
    let set = EffectSet::empty().with(63).with(3);
    assert_eq!(rt; set.first(), Some(3));
    assert_eq!(rt; set.without_first().first(), Some(63));
    assert_eq!(rt; set.without_first().without_first().first(), None);
}

#[test]
fn has_nothing_where_empty(rt: HostRuntime) {
    let empty = EffectSet::empty();
    assert_eq!(rt; empty.first(), None);
    assert_eq!(rt; empty.len(), 0);
    assert!(rt; empty.without_first() == empty);
    assert!(rt; empty.is_within(empty));
}

#[test]
fn unites(rt: HostRuntime) {
    let low = EffectSet::empty().with(0).with(1);
    let high = EffectSet::empty().with(1).with(2);
    let both = low.union(high);
    assert!(rt; both == EffectSet::empty().with(2).with(1).with(0));
    assert!(rt; low.is_within(both) && high.is_within(both));
    assert!(rt; !both.is_within(low) && !low.is_within(high));
}

#[test]
fn has_the_order_of_its_number(rt: HostRuntime) {
    let low = EffectSet::empty().with(0).with(1);
    let high = EffectSet::empty().with(2);
    assert!(rt; EffectSet::empty() < low && low < high);
    assert!(rt; low != high && !(high < high));
}

#[test]
fn is_written_as_a_number(rt: HostRuntime) -> Result<(), Fail> {
    let set = EffectSet::empty().with(6).with(0);
    assert_eq!(rt; set.to_string(rt.alloc())?.as_str(), "65");
    Ok(())
}
