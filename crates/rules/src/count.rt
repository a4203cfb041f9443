//! Counts: each command has a weight, and a list is judged by the sum of its weights modulo m.
ghost use Rattle.std.specs.Prelude.{◌≤◌, length};
ghost use Rattle.foundation.specs.Bounds.{items};
ghost use Rattle.rules.specs.Counting.{Modular, Residues};

use crate::rule::{Command, MOST_COMMANDS, OrderRule};
use foundation::bounded::Bounded;

mod making;

/// A sum of weights modulo the count's modulus.
pub type Residue = u8;

#[derive(Drop)]
pub struct Count {
    modulus: u8,
    weights: Bounded<u8, MOST_COMMANDS>,
    /// Bit k is set for a permitted residue k.
    permitted: u64,
    ghost modular: { Modular modulus },
    ghost some: { 1 ≤ length (items weights) },
    ghost residues: { Residues modulus (items weights) (length (items weights)) },
}

impl OrderRule for Count {
    type Effect = Residue;

    ghost use Rattle.rules.specs.Kinds.{count_meaning, count_lawful};

    ghost meaning = { count_meaning };

    ghost lawful = { count_lawful };

    fn commands(&self) -> u8 {
        self.weights.len() as u8
    }

    fn command(&self, c: Command) -> Option<Residue> {
        self.weights.get(usize::from(c))
    }

    fn neutral(&self) -> Residue {
        0
    }

    fn join(&self, a: Residue, b: Residue) -> Residue {
        ((u16::from(a) + u16::from(b)) % u16::from(self.modulus)) as u8
    }

    fn same(&self, a: Residue, b: Residue) -> bool {
        a == b
    }

    fn breaks(&self, e: Residue) -> bool {
        e >= 64 || (self.permitted >> e) & 1 == 0
    }
}
