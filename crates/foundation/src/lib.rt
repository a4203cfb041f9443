//! What every part stands on: sets of effect numbers, lists of bounded capacity, and how a refusal is told.
#![tactic(auto)]

pub mod bounded;
pub mod effect_set;
pub mod refusal;
