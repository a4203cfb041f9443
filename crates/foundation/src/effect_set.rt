//! Sets of effect numbers.
ghost use Rattle.std.specs.Prelude.{◌≡◌, ℕ, true, false, not, ◌&&◌, ◌||◌, length, drop, if◌then◌else◌, Some, None, decimal, Decides, MatchOption, ◌==◌, bit_or, count_ones, nat_eq, nat_lt};
ghost use Rattle.std.specs.Int.Count.{count_trailing_zeros};
ghost use Rattle.foundation.specs.Bits.{has};
ghost use Rattle.foundation.specs.Sets.{added, within, size, First, members, hits};
ghost use Rattle.std.specs.List.{slice_get};
ghost use Rattle.std.specs.Cmp.Rules.{comparing};
ghost use Rattle.std.proofs.Common.{rules};

use std::fmt;
use std::fmt::Display;
use std::marker::Model;

pub mod members;

/// The number of an effect in a table.
pub type EffectNumber = u8;

/// How many effect numbers have a place in a set.
const PLACES: EffectNumber = 64;

/// A set of effect numbers: bit `k` is set exactly for a member `k`. Clauses see it as that number, by
/// which sets are also equal and in order.
#[derive(Clone, Copy, Eq, PartialOrd, Ord)]
pub struct EffectSet {
    bits: u64,
}

impl Model for EffectSet {
    ghost Value = { ℕ };

    ghost view = { λ s. s.bits };

    ghost inverse = { λ n. record { bits = n } };
}

impl EffectSet {
    pub fn empty() -> EffectSet
        ensures value { result ≡ 0 }
        ensures members { (k : ℕ) → has result k ≡ false }
    {
        EffectSet { bits: 0 }
    }

    /// Whether `n` is a member; a number without a place never is.
    pub fn contains(self, n: EffectNumber) -> bool
        ensures { result ≡ has self n }
    {
        n < PLACES && self.bits >> n & 1 == 1
    }

    /// The set with `n` as one more member; a number without a place leaves the set as it is.
    pub fn with(self, n: EffectNumber) -> EffectSet
        ensures value { result ≡ added 64 self n }
        ensures members { (k : ℕ) → has result k ≡ (has self k || (nat_lt n 64 && k == n)) }
    {
        if n < PLACES {
            EffectSet {
                bits: self.bits | 1 << n,
            }
        } else {
            self
        }
    }

    pub fn union(self, other: EffectSet) -> EffectSet
        ensures value { result ≡ bit_or self other }
        ensures members { (k : ℕ) → has result k ≡ (has self k || has other k) }
    {
        EffectSet {
            bits: self.bits | other.bits,
        }
    }

    /// Whether each member is one of `other` too.
    pub fn is_within(self, other: EffectSet) -> bool
        ensures value { result ≡ within self other }
        ensures members { Decides result ((k : ℕ) → has self k ≡ true → has other k ≡ true) }
    {
        self.bits & other.bits == self.bits
    }

    /// Whether the two sets share a member.
    pub fn meets(self, other: EffectSet) -> bool
        ensures { result ≡ hits (has other) self }
    {
        self.bits & other.bits != 0
    }

    /// The lowest member.
    pub fn first(self) -> Option<EffectNumber>
        ensures value { result ≡ (if nat_eq self 0 then None else Some (count_trailing_zeros 64 self)) }
        ensures members { MatchOption result ((k : ℕ) → has self k ≡ false) (First self) }
        ensures listed { result ≡ slice_get (members self) 0 }
    {
        if self.is_empty() {
            None
        } else {
            Some(self.bits.trailing_zeros() as EffectNumber)
        }
    }

    /// The set without its lowest member.
    pub fn without_first(self) -> EffectSet
        ensures members { (k : ℕ) → has result k ≡ (has self k && not (k == count_trailing_zeros 64 self)) }
        ensures listed { members result ≡ drop 1 (members self) }
    {
        if self.is_empty() {
            self
        } else {
            EffectSet {
                bits: self.bits & (self.bits - 1),
            }
        }
    }

    /// How many members there are.
    pub fn len(self) -> u32
        ensures value { result ≡ count_ones self }
        ensures members { result ≡ size 64 self }
        ensures listed { result ≡ length (members self) }
    {
        self.bits.count_ones()
    }

    fn is_empty(self) -> bool
        ensures value { result ≡ (self == 0) }
        ensures members { Decides result ((k : ℕ) → has self k ≡ false) }
    {
        self.bits == 0
    }
}

/// Sets are equal exactly where they have the same members. This is written out, since a derived
/// equality could not promise it.
impl PartialEq for EffectSet {
    ghost eq = { nat_eq };

    ghost laws = { Prim.search (comparing, rules) };

    fn eq(&self, other: &EffectSet) -> bool
        ensures value { result ≡ nat_eq self.now other.now }
        ensures equal { Decides result (self.now ≡ other.now) }
        ensures members { Decides result ((k : ℕ) → has self.now k ≡ has other.now k) }
    {
        self.bits == other.bits
    }
}

/// Writes the set as a number, in base ten.
impl fmt::Display for EffectSet {
    ghost output = { λ s. Some (decimal s) };

    fn fmt<W: fmt::Write>(&self, f: &mut fmt::Formatter<W>) -> fmt::Result {
        self.bits.fmt(f)
    }
}
