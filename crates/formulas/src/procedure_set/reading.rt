//! Reading a procedure set from its bytes, in three passes: forms, owners, bodies.
ghost use Rattle.std.specs.Prelude.{◌≡◌, List, map, Result};
ghost use Rattle.std.specs.List.{list_all};
ghost use Rattle.formulas.specs.Checks.{agreed, recorded, bodied};
ghost use Rattle.formulas.specs.Entries.{entry_of};
ghost use Rattle.formulas.specs.Records.{viewed, listed, read_records, read_set, Read};
ghost use Rattle.formulas.specs.Searches.{first_bad};
ghost use Rattle.formulas.specs.Symbols.{Entry};
ghost use Rattle.formulas.specs.declared.fault.RecordsFault.{RecordsFault};

use crate::fault::RecordsFault;
use crate::procedure_set::lookup::first_owner;
use crate::procedure_set::{MOST_RECORDS, ProcedureSet};
use crate::record::{RECORD_LEN, Record};
use crate::symbol::Symbol;
use foundation::bounded::Bounded;

impl ProcedureSet {
    /// A procedure set from its records, 12 bytes each, back to back.
    // No `TryFrom`: it parses bytes of a format, which `read` says at its callers and `try_from` would not.
    pub fn read(bytes: &[u8]) -> Result<ProcedureSet, RecordsFault>
        ensures value { viewed result ≡ read_set bytes.now }
        ensures words { Read bytes.now (viewed result) }
        ensures only { (x : Result (List Entry) RecordsFault) → Read bytes.now x → x ≡ viewed result }
    {
        let records = read_records(bytes)?;
        let list = records.as_slice();
        if let Some(i) = first_stray(list) {
            return Err(RecordsFault::Owner(i));
        }
        if let Some(i) = first_unrecorded(list) {
            return Err(RecordsFault::Unrecorded(i));
        }
        Ok(ProcedureSet { records })
    }
}

/// The first pass: every record by its form. Only then do the others begin, since a form that is
/// wrong anywhere is told before an owner or a body.
fn read_records(bytes: &[u8]) -> Result<Bounded<Record, MOST_RECORDS>, RecordsFault>
    ensures { listed result ≡ read_records bytes.now }
{
    let whole = bytes.len() / RECORD_LEN;
    if bytes.len() % RECORD_LEN != 0 || whole == 0 || whole > MOST_RECORDS {
        return Err(RecordsFault::Length(whole));
    }
    let mut records = Bounded::empty(Record::blank());
    for (i, piece) in bytes.chunks_exact(RECORD_LEN).enumerate() {
        let record = Record::read(piece).ok_or(RecordsFault::Form(i))?;
        records.push(record).unwrap();
    }
    Ok(records)
}

/// The second pass: the first record whose owner is not that of its procedure's first record.
fn first_stray(records: &[Record]) -> Option<usize>
    ensures { result ≡ first_bad (agreed (map entry_of records.now)) 0 (map entry_of records.now) }
{
    records.iter().position(|record| !agrees(records, record))
}

fn agrees(records: &[Record], record: &Record) -> bool
    ensures { result ≡ agreed (map entry_of records.now) (entry_of «record».now) }
{
    // The first record speaks for all earlier ones: any that differs from it is itself refused first.
    first_owner(records, record.procedure()) == Some(record.owner())
}

/// The third pass: the first record whose body names a procedure without a record.
fn first_unrecorded(records: &[Record]) -> Option<usize>
    ensures { result ≡ first_bad (bodied (map entry_of records.now)) 0 (map entry_of records.now) }
{
    records
        .iter()
        .position(|record| !all_recorded(records, record.body()))
}

fn all_recorded(records: &[Record], body: &[Symbol]) -> bool
    ensures { result ≡ list_all (recorded (map entry_of records.now)) body.now }
{
    body.iter().all(|symbol| is_recorded(records, *symbol))
}

fn is_recorded(records: &[Record], symbol: Symbol) -> bool
    ensures { result ≡ recorded (map entry_of records.now) symbol }
{
    match symbol {
        Symbol::Command(_) => true,
        Symbol::Procedure(p) => first_owner(records, p).is_some(),
    }
}
