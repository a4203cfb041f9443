//! Order rules and the effects of command lists.
#![tactic(auto)]

pub mod chart;
pub mod count;
pub mod fault;
pub mod lists;
pub mod pair;
mod register;
pub mod rule;
pub mod table;
