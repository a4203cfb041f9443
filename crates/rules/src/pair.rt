//! Two order rules side by side: a list must keep both.
ghost use Rattle.std.specs.Prelude.{◌≡◌};
ghost use Rattle.rules.specs.Pairs.{paired, PermitsBoth, JudgedBoth};
ghost use Rattle.rules.specs.Laws.Pairs.{paired_lawful};

use crate::lists;
use crate::lists::Judgement;
use crate::rule::{Command, OrderRule};
use std::marker::Model;

#[derive(Clone, Copy)]
pub struct Pair<A, B> {
    first: A,
    second: B,
}

/// Clauses see a pair as its two rules.
impl<A, B> Model for Pair<A, B> {
    ghost Value = { A × B };

    ghost view = { λ p. (p.first, p.second) };

    ghost inverse = { λ v. record { first = v.0; second = v.1 } };
}

impl<A: OrderRule, B: OrderRule> Pair<A, B> {
    pub fn new(first: A, second: B) -> Pair<A, B>
        ensures rules { result ≡ (first, second) }
        ensures permits { PermitsBoth (A.OrderRule.meaning first) (B.OrderRule.meaning second) (paired (A.OrderRule.meaning result.0) (B.OrderRule.meaning result.1)) }
    {
        Pair { first, second }
    }

    /// What both parts say of a list.
    pub fn judge(&self, list: &[Command]) -> Judgement
        ensures { JudgedBoth (A.OrderRule.meaning self.now.0) (B.OrderRule.meaning self.now.1) list.now result }
    {
        lists::judge(self, list)
    }
}

impl<A: OrderRule, B: OrderRule> OrderRule for Pair<A, B> {
    type Effect = (A::Effect, B::Effect);

    ghost meaning = { λ p. paired (A.OrderRule.meaning p.0) (B.OrderRule.meaning p.1) };

    ghost lawful = { λ p. paired_lawful (A.OrderRule.lawful p.0) (B.OrderRule.lawful p.1) };

    fn commands(&self) -> u8 {
        self.first.commands().min(self.second.commands())
    }

    fn command(&self, c: Command) -> Option<(A::Effect, B::Effect)> {
        match (self.first.command(c), self.second.command(c)) {
            (Some(a), Some(b)) => Some((a, b)),
            _ => None,
        }
    }

    fn neutral(&self) -> (A::Effect, B::Effect) {
        (self.first.neutral(), self.second.neutral())
    }

    fn join(&self, a: (A::Effect, B::Effect), b: (A::Effect, B::Effect)) -> (A::Effect, B::Effect) {
        (self.first.join(a.0, b.0), self.second.join(a.1, b.1))
    }

    fn same(&self, a: (A::Effect, B::Effect), b: (A::Effect, B::Effect)) -> bool {
        self.first.same(a.0, b.0) && self.second.same(a.1, b.1)
    }

    fn breaks(&self, e: (A::Effect, B::Effect)) -> bool {
        self.first.breaks(e.0) || self.second.breaks(e.1)
    }
}
