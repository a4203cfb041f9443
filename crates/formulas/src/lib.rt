//! Procedure sets, formulas over effect numbers, and the rounds that settle them.
#![tactic(auto)]

mod clauses;
pub mod fault;
pub mod formula;
mod problem;
pub mod procedure_set;
pub mod record;
mod round;
pub mod solution;
pub mod symbol;
pub mod winning_set;
