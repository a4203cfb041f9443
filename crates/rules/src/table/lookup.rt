//! Reading an effect table. Numbers that are none of its own have no answer.
ghost use Rattle.std.specs.Prelude.{◌≡◌};
ghost use Rattle.rules.specs.Lookups.{table_command, table_join};
ghost use Rattle.rules.specs.Surveys.{view};

use crate::rule::Command;
use crate::table::EffectTable;
use foundation::effect_set::{EffectNumber, EffectSet};

impl EffectTable {
    /// How many effects there are; their numbers are those below.
    pub fn effects(&self) -> usize
        ensures { result ≡ (view self.now).count }
    {
        self.joins.len()
    }

    pub fn commands(&self) -> u8
        ensures { result ≡ (view self.now).commands }
    {
        self.numbers.len() as u8
    }

    /// The number of a command's effect.
    pub fn command(&self, c: Command) -> Option<EffectNumber>
        ensures { result ≡ table_command (view self.now) c }
    {
        self.numbers.get(usize::from(c))
    }

    /// The number of effect `i` joined with effect `j`.
    pub fn join(&self, i: EffectNumber, j: EffectNumber) -> Option<EffectNumber>
        ensures { result ≡ table_join (view self.now) i j }
    {
        let row = self.joins.as_slice().get(usize::from(i))?;
        row.get(usize::from(j))
    }

    /// The numbers of the effects that break the rule.
    pub fn breaking(&self) -> EffectSet
        ensures { result ≡ (view self.now).breaking }
    {
        self.breaking
    }
}
