//! The worked examples of order rules and of formulas: nothing but tests.
#![tactic(auto)]

#[cfg(test)]
mod charts;
#[cfg(test)]
mod counts;
#[cfg(test)]
mod expect;
#[cfg(test)]
mod pairs;
#[cfg(test)]
mod procedures;
#[cfg(test)]
mod sets;
#[cfg(test)]
mod tables;
