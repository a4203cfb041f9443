//! Procedure sets: how they are read, their formulas and winning sets, and the refusals.
ghost use Rattle.std.specs.Prelude.{◌≤◌, length};

use crate::expect::{check_refused, made, table_of, told};
use formulas::fault::RecordsFault;
use formulas::formula::Formula;
use formulas::procedure_set::ProcedureSet;
use formulas::solution::Solution;
use formulas::symbol::Symbol;
use formulas::winning_set::winning_set;
use foundation::effect_set::EffectSet;
use foundation::refusal::Layer;
use rules::count::Count;
use rules::table::EffectTable;
use std::alloc::{AllocError, Global};
use std::process::Abort;
use std::test::Fail;

type Record = [u8; 12];

const STATION: u8 = 0;

const FIELD: u8 = 1;

/// The symbols of the first procedures.
const P0: u8 = 32;

const P1: u8 = 33;

const P2: u8 = 34;

const P3: u8 = 35;

const P4: u8 = 36;

const P5: u8 = 37;

fn record(procedure: u8, owner: u8, symbols: &[u8]) -> Record
    requires { length symbols.now ≤ 9 }
{
    let mut bytes = [255; 12];
    bytes[0] = procedure;
    bytes[1] = owner;
    bytes[2] = symbols.len() as u8;
    bytes[3..3 + symbols.len()].copy_from_slice(symbols);
    bytes
}

fn read(
    heap: Global,
    records: &[Record],
) -> Result<Result<ProcedureSet, RecordsFault>, AllocError> {
    let bytes = records.concat(heap)?;
    Ok(ProcedureSet::read(bytes.as_slice()))
}

/// Lists of command 0 are permitted where 3 divides their length. The effects are 0, 1 and 2.
fn threes(heap: Global) -> Result<EffectTable, Fail> {
    table_of(heap, &made(Count::new(3, &[1], 1))?)
}

fn six_procedures(heap: Global) -> Result<ProcedureSet, Fail> {
    let records = [
        record(0, FIELD, &[0]),
        record(0, FIELD, &[0, P1]),
        record(1, STATION, &[]),
        record(1, STATION, &[0, 0]),
        record(2, FIELD, &[0, P2]),
        record(3, STATION, &[P3]),
        record(3, STATION, &[0]),
        record(4, FIELD, &[P4]),
        record(4, FIELD, &[0]),
        record(5, FIELD, &[0, P5]),
        record(5, FIELD, &[]),
    ];
    made(read(heap, &records)?)
}

/// Checks the clauses of a formula, as numbers joined by commas.
fn check_formula(
    rt: &impl Abort,
    heap: Global,
    formula: &Formula,
    clauses: &str,
) -> Result<(), Fail> {
    let texts: Vec<String> = formula
        .clauses()
        .iter()
        .map(|clause| clause.to_string(heap))
        .try_collect(heap)?;
    assert_eq!(rt; texts.join(heap, ",")?.as_str(), clauses);
    Ok(())
}

/// P3 can be called for ever by the station, and P2 has no other way: neither is ever won.
#[test]
fn solves_six_procedures(rt: HostRuntime) -> Result<(), Fail> {
    let heap = rt.alloc();
    let solution = made(Solution::of(&six_procedures(heap)?, &threes(heap)?, 1000))?;
    check_formula(&rt, heap, &solution.formula(0), "2")?;
    check_formula(&rt, heap, &solution.formula(1), "1,4")?;
    check_formula(&rt, heap, &solution.formula(2), "0")?;
    check_formula(&rt, heap, &solution.formula(3), "0")?;
    check_formula(&rt, heap, &solution.formula(4), "2")?;
    check_formula(&rt, heap, &solution.formula(5), "7")?;
    check_formula(&rt, heap, &solution.formula(6), "0")
}

#[test]
fn settles_six_procedures_in_round_four(rt: HostRuntime) -> Result<(), Fail> {
    let set = six_procedures(rt.alloc())?;
    let table = threes(rt.alloc())?;
    check_refused(
        &rt,
        Solution::of(&set, &table, 3),
        told(12, Layer::Solve, 3),
    )?;
    assert_eq!(rt; made(Solution::of(&set, &table, 4))?.round(), 4);
    Ok(())
}

/// After P1 twice the count is 0, 2 or 4, as the station likes.
#[test]
fn has_the_formula_of_a_form(rt: HostRuntime) -> Result<(), Fail> {
    let heap = rt.alloc();
    let table = threes(heap)?;
    let solution = made(Solution::of(&six_procedures(heap)?, &table, 4))?;
    let form = [Symbol::Procedure(1), Symbol::Procedure(1)];
    check_formula(
        &rt,
        heap,
        &made(solution.form_formula(&table, &form))?,
        "1,2,4",
    )
}

/// The field wants a count that 3 does not divide.
#[test]
fn wins_from_these_counts(rt: HostRuntime) -> Result<(), Fail> {
    let table = threes(rt.alloc())?;
    let solution = made(Solution::of(&six_procedures(rt.alloc())?, &table, 4))?;
    let target = EffectSet::empty().with(1).with(2);
    for (list, wins) in [
        ([Symbol::Procedure(0), Symbol::Command(0)], "5"),
        ([Symbol::Procedure(1), Symbol::Command(0)], "2"),
        ([Symbol::Procedure(2), Symbol::Command(0)], "0"),
        ([Symbol::Command(0), Symbol::Procedure(5)], "7"),
        ([Symbol::Command(0), Symbol::Command(1)], "0"),
    ] {
        let won = winning_set(&table, &solution, target, &list);
        assert_eq!(rt; won.to_string(rt.alloc())?.as_str(), wins);
    }
    assert!(rt; winning_set(&table, &solution, target, &[]) == target);
    Ok(())
}

/// The station has P0 do one of the commands 0 to 7 and P1 one of 8 to 15, the field takes P0 or P1.
fn eight_by_eight(heap: Global) -> Result<Vec<Record>, Fail> {
    let low = (0..8).map(|c| record(0, STATION, &[c]));
    let high = (8..16).map(|c| record(1, STATION, &[c]));
    let choices = [record(2, FIELD, &[P0]), record(2, FIELD, &[P1])];
    Ok(low.chain(high).chain(choices).collect(heap)?)
}

/// The effect of each command is its own number.
fn sixteen_weights(heap: Global) -> Result<EffectTable, Fail> {
    let weights = [0, 1, 2, 3, 4, 5, 6, 7, 8, 9, 10, 11, 12, 13, 14, 15];
    table_of(heap, &made(Count::new(64, &weights, 1))?)
}

/// A number below 8 and one from 8 to 15, in rising order.
fn pairs_of_effects(heap: Global) -> Result<Vec<EffectSet>, Fail> {
    let pairs = (8..16).flat_map(|high| {
        (0..8).map(move |low| EffectSet::empty().with(low).with(high))
    });
    Ok(pairs.collect(heap)?)
}

#[test]
fn has_64_clauses(rt: HostRuntime) -> Result<(), Fail> {
    let heap = rt.alloc();
    let set = made(read(heap, eight_by_eight(heap)?.as_slice())?)?;
    let solution = made(Solution::of(&set, &sixteen_weights(heap)?, 3))?;
    assert_eq!(rt; solution.round(), 3);
    let pairs = pairs_of_effects(heap)?;
    assert_eq!(rt; pairs.len(), 64);
    assert!(rt; solution.formula(2).clauses() == pairs.as_slice());
    Ok(())
}

#[test]
fn refuses_a_65th_clause(rt: HostRuntime) -> Result<(), Fail> {
    let heap = rt.alloc();
    let mut records = eight_by_eight(heap)?;
    records.push(record(1, STATION, &[15, 1]))?;
    let set = made(read(heap, records.as_slice())?)?;
    check_refused(
        &rt,
        Solution::of(&set, &sixteen_weights(heap)?, 3),
        told(11, Layer::Solve, 2),
    )
}

/// The bytes are no records either, but the length is looked at first.
#[test]
fn refuses_no_whole_records_and_too_many(rt: HostRuntime) -> Result<(), Fail> {
    for (len, place) in [(0, 0), (11, 0), (13, 1), (1537, 128), (1548, 129)] {
        let bytes = vec![in rt.alloc(); 255; len]?;
        check_refused(
            &rt,
            ProcedureSet::read(bytes.as_slice()),
            told(1, Layer::Records, place),
        )?;
    }
    let bytes = record(0, STATION, &[]).repeat(rt.alloc(), 128)?;
    assert_eq!(rt; made(ProcedureSet::read(bytes.as_slice()))?.len(), 128);
    Ok(())
}

/// Each record is broken in one place alone.
#[test]
fn refuses_broken_records(rt: HostRuntime) -> Result<(), Fail> {
    let good = record(31, FIELD, &[15, 63]);
    for (at, byte) in [
        (0, 32),
        (1, 2),
        (2, 1),
        (2, 3),
        (2, 10),
        (3, 16),
        (4, 64),
        (5, 0),
        (11, 254),
    ] {
        let mut broken = good;
        broken[at] = byte;
        check_refused(
            &rt,
            read(rt.alloc(), &[good, broken, broken])?,
            told(2, Layer::Records, 1),
        )?;
    }
    assert_eq!(rt; made(read(rt.alloc(), &[good])?)?.len(), 1);
    Ok(())
}

/// The first record of a kind is told: one that is broken before one with another owner, and that
/// before one with a call without a record.
#[test]
fn refuses_records_in_order(rt: HostRuntime) -> Result<(), Fail> {
    let heap = rt.alloc();
    let broken = record(32, FIELD, &[]);
    let (ours, theirs) = (record(1, STATION, &[]), record(1, FIELD, &[]));
    let stray = record(0, FIELD, &[P2]);
    check_refused(
        &rt,
        read(heap, &[stray, ours, theirs, broken])?,
        told(2, Layer::Records, 3),
    )?;
    check_refused(
        &rt,
        read(heap, &[stray, ours, theirs, ours])?,
        told(3, Layer::Records, 2),
    )?;
    check_refused(
        &rt,
        read(heap, &[theirs, ours, stray])?,
        told(3, Layer::Records, 1),
    )?;
    check_refused(
        &rt,
        read(heap, &[ours, ours, stray, stray])?,
        told(4, Layer::Records, 2),
    )
}

/// The allowance is looked at first.
#[test]
fn refuses_an_allowance_and_then_a_command(rt: HostRuntime) -> Result<(), Fail> {
    let table = threes(rt.alloc())?;
    let records = [
        record(0, FIELD, &[]),
        record(0, FIELD, &[0, 1]),
        record(0, FIELD, &[1]),
    ];
    let set = made(read(rt.alloc(), &records)?)?;
    check_refused(&rt, Solution::of(&set, &table, 0), told(8, Layer::Solve, 0))?;
    check_refused(
        &rt,
        Solution::of(&set, &table, 1001),
        told(8, Layer::Solve, 0),
    )?;
    check_refused(
        &rt,
        Solution::of(&set, &table, 1),
        told(10, Layer::Solve, 1),
    )?;
    check_refused(
        &rt,
        Solution::of(&set, &table, 1000),
        told(10, Layer::Solve, 1),
    )
}
