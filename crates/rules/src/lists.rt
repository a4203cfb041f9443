//! One list of commands under any order rule.
ghost use Rattle.std.specs.Prelude.{Some, MatchOption};
ghost use Rattle.rules.specs.Judgements.{Judged, HasEffect, judgement_name};
ghost use Rattle.rules.specs.Meaning.{Below};

use crate::rule::{Command, OrderRule};
use std::fmt;

/// What a rule says of a list of commands.
#[derive(Clone, Copy, PartialEq, Eq, Debug)]
pub enum Judgement {
    Permitted,
    Forbidden,
    /// The list has a command that the rule lacks.
    Neither,
}

impl fmt::Display for Judgement {
    ghost output = { λ j. Some (judgement_name j) };

    fn fmt<W: fmt::Write>(&self, f: &mut fmt::Formatter<W>) -> fmt::Result {
        match self {
            Judgement::Permitted => write!(f, "permitted"),
            Judgement::Forbidden => write!(f, "forbidden"),
            Judgement::Neither => write!(f, "neither"),
        }
    }
}

/// The effect of a list, or `None` where it has a command that the rule lacks.
fn effect_of<R: OrderRule>(rule: &R, list: &[Command]) -> Option<R::Effect>
    ensures { MatchOption result (¬ Below (R.OrderRule.meaning rule.now).commands list.now) (HasEffect (R.OrderRule.meaning rule.now) list.now) }
{
    list.iter().try_fold(rule.neutral(), |so_far, c| {
        Some(rule.join(so_far, rule.command(*c)?))
    })
}

/// Judges a list by its effect.
pub fn judge<R: OrderRule>(rule: &R, list: &[Command]) -> Judgement
    ensures { Judged (R.OrderRule.meaning rule.now) list.now result }
{
    match effect_of(rule, list) {
        Some(effect) if rule.breaks(effect) => Judgement::Forbidden,
        Some(_) => Judgement::Permitted,
        None => Judgement::Neither,
    }
}
