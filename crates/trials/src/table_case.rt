//! The first kind of case, `SHAPE ROOM LIST PART ..`: a list is judged, and the effects are numbered.
use crate::fault::Fault;
use crate::list::write_list;
use crate::rule::{MOST_EFFECTS, Shape, Trial};
use crate::words::Words;
use foundation::refusal::Refusal;
use rules::fault::EffectsFault;
use rules::lists::{Judgement, judge};
use rules::rule::{Command, OrderRule};
use rules::table::EffectTable;
use std::alloc::Global;
use std::fmt;
use std::fmt::Display;

const MOST_ROOM: usize = 100;

#[derive(Drop)]
pub struct TableCase {
    pub shape: Shape,
    /// The length of the slice that is to receive the effects.
    room: usize,
    list: Vec<Command>,
}

/// What came of a case whose rule was made.
#[derive(Drop)]
pub struct TableOutcome {
    judgement: Judgement,
    table: Result<EffectTable, EffectsFault>,
}

impl TableCase {
    /// Reads what comes after the name of the shape.
    // No `FromStr`, as at `Shape::read`.
    pub fn read(shape_name: &str, words: &mut Words<'_>) -> Result<TableCase, Fault> {
        let room = read_room(words)?;
        let list = words.numbers()?;
        let shape = Shape::read(shape_name, words)?;
        Ok(TableCase { shape, room, list })
    }
}

fn read_room(words: &mut Words<'_>) -> Result<usize, Fault> {
    let room = words.number::<usize>()?;
    if room > MOST_ROOM {
        return Err(Fault::Malformed);
    }
    Ok(room)
}

impl Trial for TableCase {
    type Outcome = TableOutcome;

    /// The effects are found in a slice of neutral ones.
    fn under<R: OrderRule>(&self, heap: Global, rule: &R) -> Result<TableOutcome, Fault>
    where
        R::Effect: Clone,
    {
        let mut slice = vec![in heap; rule.neutral(); self.room]?;
        Ok(TableOutcome {
            judgement: judge(rule, self.list.as_slice()),
            table: EffectTable::of(rule, slice.as_mut_slice()),
        })
    }
}

impl fmt::Display for TableOutcome {
    fn fmt<W: fmt::Write>(&self, f: &mut fmt::Formatter<W>) -> fmt::Result {
        write!(f, "{} ", self.judgement)?;
        match &self.table {
            Ok(table) => write_table(table, f),
            Err(fault) => Refusal::from(*fault).fmt(f),
        }
    }
}

fn write_table<W: fmt::Write>(table: &EffectTable, f: &mut fmt::Formatter<W>) -> fmt::Result {
    write!(
        f,
        "effects {} commands {} ",
        table.effects(),
        table.commands()
    )?;
    write!(f, "breaking {} numbers ", table.breaking())?;
    let numbers = (0..table.commands()).filter_map(|c| table.command(c));
    write_list(numbers, f)?;
    write!(f, " joins {}", join_checksum(table))
}

/// One number for all joins, row by row. A number that is no effect's has no join.
fn join_checksum(table: &EffectTable) -> u32 {
    (0..MOST_EFFECTS).fold(0, |checksum, i| {
        (0..MOST_EFFECTS).fold(checksum, |checksum: u32, j| {
            if let Some(number) = table.join(i, j) {
                checksum.wrapping_mul(31).wrapping_add(u32::from(number)) % 65521
            } else {
                checksum
            }
        })
    })
}
