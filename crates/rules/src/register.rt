//! The register: effects of any kind, numbered in the order in which they are met.
//!
//! The caller's slice holds the effects at its front. The functions are handed that slice, or the
//! part of it that is in use.
ghost use Rattle.std.specs.Prelude.{◌≡◌, ◌<◌, ◌≤◌, length, take, IfSome, MatchOption};
ghost use Rattle.std.specs.List.{AllByRecursion};
ghost use Rattle.rules.specs.Register.{Onward, place, entered, row, outcome, entries, written, of_effects, met_effects};

use crate::rule::{Command, OrderRule};
use crate::table::MOST_EFFECTS;

/// The number of an effect, if it was met.
pub(crate) fn find<R: OrderRule>(rule: &R, met: &[R::Effect], e: R::Effect) -> Option<usize>
    requires met { AllByRecursion (R.OrderRule.meaning rule.now).own met.now }
    requires own { (R.OrderRule.meaning rule.now).own e }
    ensures place { result ≡ place (R.OrderRule.meaning rule.now).same 0 met.now e }
    ensures within { IfSome result (λ i. i < length met.now) }
{
    met.iter().position(|x| rule.same(*x, e))
}

/// Enters an effect if it is new: how many there are then, or `None` where it finds no place.
// The effects live in the caller's slice, whose first `count` entries are in use: both stay parameters, here and below.
fn enter<R: OrderRule>(
    rule: &R,
    slice: &mut [R::Effect],
    count: usize,
    e: R::Effect,
) -> Option<usize>
    requires few { count ≤ 64 }
    requires room { 64 ≤ length slice.old }
    requires met { AllByRecursion (R.OrderRule.meaning rule.now).own (take count slice.old) }
    requires own { (R.OrderRule.meaning rule.now).own e }
    ensures count { result ≡ outcome (entered (of_effects (R.OrderRule.meaning rule.now)) (take count slice.old) e) }
    ensures slice { slice.new ≡ written (entries (entered (of_effects (R.OrderRule.meaning rule.now)) (take count slice.old) e)) slice.old }
{
    if find(rule, &slice[..count], e).is_some() {
        Some(count)
    } else if count < MOST_EFFECTS {
        slice[count] = e;
        Some(count + 1)
    } else {
        None
    }
}

/// What an effect leads to by one command.
fn lead<R: OrderRule>(rule: &R, from: R::Effect, c: Command) -> Option<R::Effect>
    requires { (R.OrderRule.meaning rule.now).own from }
    ensures { MatchOption result ((R.OrderRule.meaning rule.now).commands ≤ c) (Onward (R.OrderRule.meaning rule.now) from c) }
{
    Some(rule.join(from, rule.command(c)?))
}

/// Enters what the effect `from` leads to by each command.
fn extend<R: OrderRule>(
    rule: &R,
    slice: &mut [R::Effect],
    count: usize,
    from: R::Effect,
) -> Option<usize>
    requires few { count ≤ 64 }
    requires room { 64 ≤ length slice.old }
    requires met { AllByRecursion (R.OrderRule.meaning rule.now).own (take count slice.old) }
    requires own { (R.OrderRule.meaning rule.now).own from }
    ensures count { result ≡ outcome (row (of_effects (R.OrderRule.meaning rule.now)) (R.OrderRule.meaning rule.now).commands 0 (take count slice.old) from) }
    ensures slice { slice.new ≡ written (entries (row (of_effects (R.OrderRule.meaning rule.now)) (R.OrderRule.meaning rule.now).commands 0 (take count slice.old) from)) slice.old }
{
    let mut met = count;
    for c in 0..rule.commands() {
        let to = lead(rule, from, c).unwrap();
        met = enter(rule, slice, met, to)?;
    }
    Some(met)
}

/// Registers every effect that a list of commands has: how many there are, or `None` if more than
/// the register has room for.
pub(crate) fn register<R: OrderRule>(rule: &R, slice: &mut [R::Effect]) -> Option<usize>
    requires { 64 ≤ length slice.old }
    ensures count { result ≡ outcome (met_effects (R.OrderRule.meaning rule.now)) }
    ensures slice { slice.new ≡ written (entries (met_effects (R.OrderRule.meaning rule.now))) slice.old }
{
    slice[0] = rule.neutral();
    let mut count = 1;
    let mut i = 0;
    // `count` grows on the way: no range serves, and `while let Some(..) = slice[..count].get(i)` is no plainer.
    while i < count {
        let from = slice[i];
        count = extend(rule, slice, count, from)?;
        i += 1;
    }
    Some(count)
}
