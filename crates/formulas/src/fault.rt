//! Refusals: what was wrong, and how it is told outside, by number, layer and place.
ghost use Rattle.std.specs.Prelude.{◌≡◌, ⊤};
ghost use Rattle.formulas.specs.Refusals.{records_refusal, solve_refusal};

use crate::symbol::Procedure;
use foundation::bounded::Full;
use foundation::refusal::{Layer, Refusal};

/// Why bytes were not read as a procedure set.
#[derive(Clone, Copy)]
pub enum RecordsFault {
    /// The bytes are not 1 to 128 whole records; with how many whole ones there are.
    Length(usize),
    /// The first record that does not have a record's form.
    Form(usize),
    /// The first record that names another owner than an earlier record of its procedure.
    Owner(usize),
    /// The first record whose body names a procedure that has no record.
    Unrecorded(usize),
}

impl From<RecordsFault> for Refusal {
    ghost from_gives = { λ f r. r ≡ records_refusal f };

    fn from(fault: RecordsFault) -> Refusal {
        let (number, place) = match fault {
            RecordsFault::Length(whole) => (1, whole),
            RecordsFault::Form(record) => (2, record),
            RecordsFault::Owner(record) => (3, record),
            RecordsFault::Unrecorded(record) => (4, record),
        };
        Refusal {
            number,
            layer: Layer::Records,
            place,
        }
    }
}

/// Why a procedure set was not solved.
#[derive(Clone, Copy)]
pub enum SolveFault {
    /// The allowance of rounds is not 1 to 1,000.
    Allowance,
    /// The first record whose body has a command that the rule lacks.
    UnknownCommand(usize),
    /// The procedure at whose formula a 65th clause would have stood.
    TooManyClauses(Procedure),
    /// No round within the allowance is equal to the one before it; with the allowance.
    Unsettled(u32),
}

impl From<SolveFault> for Refusal {
    ghost from_gives = { λ f r. r ≡ solve_refusal f };

    fn from(fault: SolveFault) -> Refusal {
        let (number, place) = match fault {
            SolveFault::Allowance => (8, 0),
            SolveFault::UnknownCommand(record) => (10, record),
            SolveFault::TooManyClauses(procedure) => (11, usize::from(procedure)),
            SolveFault::Unsettled(allowance) => (12, allowance as usize),
        };
        Refusal {
            number,
            layer: Layer::Solve,
            place,
        }
    }
}

/// One clause more would stand in a formula than there is room for. It has a name of its own beside `Full`,
/// since callers see a formula and not the list that holds it.
#[derive(Clone, Copy)]
pub struct Overflow;

impl From<Full> for Overflow {
    ghost from_gives = { λ _ _. ⊤ };

    fn from(_: Full) -> Overflow {
        Overflow
    }
}
