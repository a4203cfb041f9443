//! Procedure sets: the records of all procedures, by number.
ghost use Rattle.std.specs.Prelude.{◌≡◌, ◌<◌, true, map, length};
ghost use Rattle.foundation.specs.Bounds.{items};
ghost use Rattle.std.specs.List.{list_all};
ghost use Rattle.formulas.specs.Checks.{agreed, bodied};
ghost use Rattle.formulas.specs.Entries.{entry_of};

use crate::record::Record;
use foundation::bounded::Bounded;

mod lookup;
mod reading;

/// How many records a set has at most.
const MOST_RECORDS: usize = 128;

/// 1 to 128 records. Those of one procedure name one owner, and every procedure that a body names
/// has a record.
#[derive(Clone, Copy)]
pub struct ProcedureSet {
    records: Bounded<Record, MOST_RECORDS>,
    ghost some: { 0 < length (items records) },
    ghost agree: { list_all (agreed (map entry_of (items records))) (map entry_of (items records)) ≡ true },
    ghost named: { list_all (bodied (map entry_of (items records))) (map entry_of (items records)) ≡ true },
}
