//! Runs cases: each line of the standard input is one, and is answered by one line.
#![tactic(auto)]

mod case;
mod fault;
mod list;
mod rule;
mod solve_case;
mod table_case;
mod words;

use crate::case::{Case, Outcome};
use crate::fault::Fault;
use std::alloc::Global;
use std::io::{BufRead, BufReader};

fn answer(heap: Global, line: &str) -> Result<Outcome, Fault> {
    Case::read(heap, line)?.run(heap)
}

/// Prints what came of a case; a failed allocation ends the program.
fn print_answer(rt: &HostRuntime, line: &str) -> anyhow::Result<()> {
    match answer(rt.alloc(), line) {
        Ok(outcome) => rt.println(outcome)?,
        Err(Fault::Memory(error)) => return Err(error.into()),
        Err(fault) => rt.println(fault)?,
    }
    Ok(())
}

fn main(rt: HostRuntime) -> anyhow::Result<()> {
    for line in BufReader::new(rt.alloc(), rt.stdin())?.lines(rt.alloc()) {
        print_answer(&rt, line?.as_str())?;
    }
    Ok(())
}
