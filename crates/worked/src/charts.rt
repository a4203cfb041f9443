//! Charts: what they permit, their effects and their refusals.
use crate::expect::{check_effects, check_refused, made, told};
use foundation::refusal::Layer;
use rules::chart::Chart;
use rules::fault::RuleFault;
use rules::lists::{Judgement, judge};
use std::alloc::{AllocError, Global};
use std::test::Fail;

type Record = [u8; 12];

fn arrow(from: u8, command: u8, to: u8) -> Record {
    [0, from, command, to, 255, 255, 255, 255, 255, 255, 255, 255]
}

fn final_state(state: u8) -> Record {
    [1, state, 255, 255, 255, 255, 255, 255, 255, 255, 255, 255]
}

fn draw(heap: Global, records: &[Record]) -> Result<Result<Chart, RuleFault>, AllocError> {
    let bytes = records.concat(heap)?;
    Ok(Chart::new(bytes.as_slice()))
}

/// Command 0 leads from state 0 to state 1, and command 1 leads back. Only state 0 is final.
fn there_and_back(heap: Global) -> Result<Chart, Fail> {
    made(draw(heap, &[arrow(0, 0, 1), arrow(1, 1, 0), final_state(0)])?)
}

#[test]
fn permits_there_and_back(rt: HostRuntime) -> Result<(), Fail> {
    let chart = there_and_back(rt.alloc())?;
    assert_eq!(rt; judge(&chart, &[]), Judgement::Permitted);
    assert_eq!(rt; judge(&chart, &[0, 1]), Judgement::Permitted);
    assert_eq!(rt; judge(&chart, &[0]), Judgement::Forbidden);
    assert_eq!(rt; judge(&chart, &[1]), Judgement::Forbidden);
    assert_eq!(rt; judge(&chart, &[0, 16]), Judgement::Neither);
    Ok(())
}

/// They are those of [], [0], [1], [2], [0, 1] and [1, 0], in this order; [2] leads nowhere. From
/// state 0 to itself lead only [] and [0, 1], so that 1, 2, 3 and 5 break.
#[test]
fn has_six_effects_there_and_back(rt: HostRuntime) -> Result<(), Fail> {
    let chart = there_and_back(rt.alloc())?;
    check_effects(&rt, rt.alloc(), &chart, 6, "46")
}

/// The effects are the neutral one and that of every command. Both break.
#[test]
fn permits_nothing_without_records(rt: HostRuntime) -> Result<(), Fail> {
    let chart = made(Chart::new(&[]))?;
    assert_eq!(rt; judge(&chart, &[]), Judgement::Forbidden);
    assert_eq!(rt; judge(&chart, &[0]), Judgement::Forbidden);
    check_effects(&rt, rt.alloc(), &chart, 2, "3")
}

/// The effects are the neutral one, that of command 0 and that of all others. The last breaks.
#[test]
fn permits_one_command_in_one_state(rt: HostRuntime) -> Result<(), Fail> {
    let chart = made(draw(rt.alloc(), &[final_state(0), arrow(0, 0, 0)])?)?;
    assert_eq!(rt; judge(&chart, &[0, 0, 0]), Judgement::Permitted);
    assert_eq!(rt; judge(&chart, &[1]), Judgement::Forbidden);
    check_effects(&rt, rt.alloc(), &chart, 3, "4")
}

/// The effects are the neutral one and that of every command. The last breaks.
#[test]
fn permits_the_empty_list_alone_without_arrows(rt: HostRuntime) -> Result<(), Fail> {
    let chart = made(Chart::new(&final_state(0)))?;
    assert_eq!(rt; judge(&chart, &[]), Judgement::Permitted);
    assert_eq!(rt; judge(&chart, &[0]), Judgement::Forbidden);
    check_effects(&rt, rt.alloc(), &chart, 2, "2")
}

/// The bytes are no records either, but the length is looked at first.
#[test]
fn refuses_a_length(rt: HostRuntime) -> Result<(), Fail> {
    for (len, place) in [(11, 0), (13, 1), (12_289, 1024), (12_300, 1025)] {
        let bytes = vec![in rt.alloc(); 255; len]?;
        check_refused(
            &rt,
            Chart::new(bytes.as_slice()),
            told(5, Layer::Rule, place),
        )?;
    }
    Ok(())
}

#[test]
fn accepts_1024_records(rt: HostRuntime) -> Result<(), Fail> {
    let mut bytes = arrow(0, 0, 1).repeat(rt.alloc(), 1023)?;
    bytes.extend_from_slice(&final_state(1))?;
    assert_eq!(rt; bytes.len(), 12_288);
    let chart = made(Chart::new(bytes.as_slice()))?;
    assert_eq!(rt; judge(&chart, &[0]), Judgement::Permitted);
    Ok(())
}

#[test]
fn refuses_the_first_broken_record(rt: HostRuntime) -> Result<(), Fail> {
    let (good, broken) = (arrow(0, 0, 1), arrow(8, 0, 1));
    check_refused(
        &rt,
        draw(rt.alloc(), &[broken, good, good])?,
        told(5, Layer::Rule, 0),
    )?;
    check_refused(
        &rt,
        draw(rt.alloc(), &[good, broken, good])?,
        told(5, Layer::Rule, 1),
    )?;
    check_refused(
        &rt,
        draw(rt.alloc(), &[good, good, broken])?,
        told(5, Layer::Rule, 2),
    )?;
    check_refused(
        &rt,
        draw(rt.alloc(), &[good, broken, broken])?,
        told(5, Layer::Rule, 1),
    )
}

#[test]
fn refuses_numbers_out_of_range(rt: HostRuntime) -> Result<(), Fail> {
    let mut third_kind = arrow(0, 0, 1);
    third_kind[0] = 2;
    for broken in [
        third_kind,
        arrow(8, 0, 1),
        arrow(0, 16, 1),
        arrow(0, 0, 8),
        final_state(8),
    ] {
        check_refused(
            &rt,
            draw(rt.alloc(), &[final_state(0), broken])?,
            told(5, Layer::Rule, 1),
        )?;
    }
    let _ = made(draw(rt.alloc(), &[final_state(7), arrow(7, 15, 7)])?)?;
    Ok(())
}

#[test]
fn refuses_other_fillers(rt: HostRuntime) -> Result<(), Fail> {
    for at in 4..12 {
        let mut record = arrow(0, 0, 1);
        record[at] = 254;
        check_refused(&rt, Chart::new(&record), told(5, Layer::Rule, 0))?;
    }
    for at in 2..12 {
        let mut record = final_state(0);
        record[at] = 0;
        check_refused(&rt, Chart::new(&record), told(5, Layer::Rule, 0))?;
    }
    Ok(())
}
