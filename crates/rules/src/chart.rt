//! Charts: finite automata over eight states, with boxes as effects.
ghost use Rattle.std.specs.Prelude.{◌≡◌, ℕ, ◌^◌, ◌<◌, slice_index};
ghost use Rattle.foundation.specs.Bits.{has};
ghost use Rattle.rules.specs.Boxes.{through, composed, accepting};

use crate::rule::{Command, MOST_COMMANDS, OrderRule};

mod making;

/// A set of pairs of states: bit 8 p + q is set where a list leads from p to q.
pub type BoxWord = u64;

/// Each state paired with itself.
const IDENTITY: BoxWord = 0x8040_2010_0804_0201;

#[derive(Clone, Copy)]
pub struct Chart {
    /// The box of each command.
    boxes: [BoxWord; MOST_COMMANDS],
    finals: [bool; 8],
    ghost boxed: { (c : ℕ) → c < 16 → slice_index boxes c < 2 ^ 64 },
}

/// The states that the two boxes lead to from p, one bit each.
fn row(a: BoxWord, b: BoxWord, p: u32) -> u64
    requires { p < 8 }
    ensures small { result < 2 ^ 8 }
    ensures bits { (q : ℕ) → q < 8 → has result q ≡ through a b p q }
{
    (0..8).fold(0, |states, r| {
        if (a >> (8 * p + r)) & 1 == 1 {
            states | (b >> (8 * r)) & 0xff
        } else {
            states
        }
    })
}

fn compose(a: BoxWord, b: BoxWord) -> BoxWord
    ensures { result ≡ composed a b }
{
    (0..8).fold(0, |joined, p| joined | row(a, b, p) << (8 * p))
}

/// Whether the box leads from state 0 to a final state.
fn accepts(finals: &[bool; 8], a: BoxWord) -> bool
    ensures { result ≡ accepting finals.now a }
{
    finals
        .iter()
        .enumerate()
        .any(|(q, is_final)| *is_final && (a >> q) & 1 == 1)
}

impl OrderRule for Chart {
    type Effect = BoxWord;

    ghost use Rattle.rules.specs.Kinds.{chart_meaning, chart_lawful};

    ghost meaning = { chart_meaning };

    ghost lawful = { chart_lawful };

    fn commands(&self) -> u8 {
        MOST_COMMANDS as Command
    }

    fn command(&self, c: Command) -> Option<BoxWord> {
        self.boxes.get(usize::from(c)).copied()
    }

    fn neutral(&self) -> BoxWord {
        IDENTITY
    }

    fn join(&self, a: BoxWord, b: BoxWord) -> BoxWord {
        compose(a, b)
    }

    fn same(&self, a: BoxWord, b: BoxWord) -> bool {
        a == b
    }

    fn breaks(&self, e: BoxWord) -> bool {
        !accepts(&self.finals, e)
    }
}
