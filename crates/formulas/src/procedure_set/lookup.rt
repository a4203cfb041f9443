//! Looking things up in a procedure set.
ghost use Rattle.std.specs.Prelude.{◌≡◌, map, length};
ghost use Rattle.std.specs.Option.{option_map};
ghost use Rattle.std.specs.List.{slice_get};
ghost use Rattle.formulas.specs.Entries.{entry_of};
ghost use Rattle.formulas.specs.Records.{entries};
ghost use Rattle.formulas.specs.Symbols.{owner_of};

use crate::procedure_set::ProcedureSet;
use crate::record::Record;
use crate::symbol::{Owner, Procedure};

impl ProcedureSet {
    /// How many records there are, 1 to 128.
    pub fn len(&self) -> usize
        ensures { result ≡ length (entries self.now) }
    {
        self.records.len()
    }

    /// The records, in order.
    pub fn records(&self) -> &[Record]
        ensures { map entry_of result.now ≡ entries self.now }
    {
        self.records.as_slice()
    }

    /// The record with the number `i`.
    pub fn get(&self, i: usize) -> Option<Record>
        ensures { option_map entry_of result ≡ slice_get (entries self.now) i }
    {
        self.records.get(i)
    }

    /// The side that a procedure belongs to, or `None` where it has no record.
    pub fn owner(&self, p: Procedure) -> Option<Owner>
        ensures { result ≡ owner_of (entries self.now) p }
    {
        first_owner(self.records(), p)
    }
}

/// The owner that the first record of a procedure names.
pub(super) fn first_owner(records: &[Record], p: Procedure) -> Option<Owner>
    ensures { result ≡ owner_of (map entry_of records.now) p }
{
    records
        .iter()
        .find(|record| record.procedure() == p)
        .map(|record| record.owner())
}
