//! Rounds: a formula for each procedure.
ghost use Rattle.std.specs.Prelude.{◌≡◌, length};

use crate::formula::Formula;
use crate::symbol::PROCEDURES;

mod bodies;
mod next;

/// The formulas of all procedures, by number.
#[derive(Clone, Copy, PartialEq)]
pub(crate) struct Round {
    formulas: [Formula; PROCEDURES as usize],
    ghost whole: { length formulas ≡ 32 },
}
