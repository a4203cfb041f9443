//! Reading a record from its bytes, and reading its parts.
ghost use Rattle.std.specs.Prelude.{◌≡◌, ◌≤◌, length, nat_eq};
ghost use Rattle.std.specs.Option.{option_map};
ghost use Rattle.foundation.specs.Bounds.{items};
ghost use Rattle.std.specs.List.{list_all};
ghost use Rattle.formulas.specs.Entries.{entry_of};
ghost use Rattle.formulas.specs.RecordForms.{symbols_in, entry_in};

use crate::record::{LONGEST, RECORD_LEN, Record};
use crate::symbol::{Owner, PROCEDURES, Procedure, Symbol};
use foundation::bounded::Bounded;

/// What the bytes after a body are.
const FILL: u8 = 255;

impl Record {
    /// The record that the bytes say, or `None` where they have another form.
    // No `TryFrom`: it parses bytes of a format, which `read` says at its caller and `try_from` would not.
    pub(crate) fn read(bytes: &[u8]) -> Option<Record>
        ensures { option_map entry_of result ≡ entry_in bytes.now }
    {
        if bytes.len() != RECORD_LEN {
            return None;
        }
        let [procedure, owner, len, rest @ ..] = bytes else {
            return None;
        };
        let len = usize::from(*len);
        if *procedure >= PROCEDURES || len > LONGEST {
            return None;
        }
        let (body, fill) = rest.split_at(len);
        if !is_filled(fill) {
            return None;
        }
        Some(Record {
            procedure: *procedure,
            owner: Owner::try_from(*owner).ok()?,
            body: read_body(body)?,
        })
    }

    /// A record that stands for none, in room that is not used yet.
    pub(crate) fn blank() -> Record {
        Record {
            procedure: 0,
            owner: Owner::Station,
            body: Bounded::empty(Symbol::Command(0)),
        }
    }

    pub fn procedure(&self) -> Procedure
        ensures { result ≡ (entry_of self.now).procedure }
    {
        self.procedure
    }

    pub(crate) fn owner(&self) -> Owner
        ensures { result ≡ (entry_of self.now).owner }
    {
        self.owner
    }

    pub fn body(&self) -> &[Symbol]
        ensures { result.now ≡ (entry_of self.now).body }
    {
        self.body.as_slice()
    }
}

fn is_filled(bytes: &[u8]) -> bool
    ensures { result ≡ list_all (λ b. nat_eq b 255) bytes.now }
{
    bytes.iter().all(|byte| *byte == FILL)
}

/// A symbol for each byte, or `None` where a byte is none.
fn read_body(bytes: &[u8]) -> Option<Bounded<Symbol, LONGEST>>
    requires { length bytes.now ≤ 9 }
    ensures { option_map items result ≡ symbols_in bytes.now }
{
    let mut body = Bounded::empty(Symbol::Command(0));
    for byte in bytes {
        let symbol = Symbol::try_from(*byte).ok()?;
        body.push(symbol).unwrap();
    }
    Some(body)
}
