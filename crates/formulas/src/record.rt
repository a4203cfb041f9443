//! Records: one body of a procedure, and the side that the procedure belongs to.
ghost use Rattle.std.specs.Prelude.{◌≡◌, ◌<◌, true};
ghost use Rattle.foundation.specs.Bounds.{items};
ghost use Rattle.std.specs.List.{list_all};
ghost use Rattle.formulas.specs.Symbols.{proper};

use crate::symbol::{Owner, Procedure, Symbol};
use foundation::bounded::Bounded;

mod reading;

/// How many bytes a record has. That a chart's have as many is chance: the two formats have nothing to do with one another.
pub(crate) const RECORD_LEN: usize = 12;

/// How many symbols a body has at most.
const LONGEST: usize = 9;

/// One body of a procedure, with the procedure's owner. Clauses see it through `entry_of`: an `impl Model`
/// of a `Copy` type would have to give the fields back, and the unused cells of the body are not in an entry.
#[derive(Clone, Copy)]
pub struct Record {
    procedure: Procedure,
    owner: Owner,
    body: Bounded<Symbol, LONGEST>,
    ghost known: { procedure < 32 },
    ghost sound: { list_all proper (items body) ≡ true },
}
