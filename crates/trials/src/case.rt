//! Cases of every kind: a line is read, run and answered by its kind.
use crate::fault::Fault;
use crate::solve_case::{SolveCase, SolveOutcome};
use crate::table_case::{TableCase, TableOutcome};
use crate::words::Words;
use std::alloc::Global;
use std::fmt;
use std::fmt::Display;

#[derive(Drop)]
pub enum Case {
    Table(TableCase),
    Solve(SolveCase),
}

/// What came of a case that was not refused.
#[derive(Drop)]
pub enum Outcome {
    Table(TableOutcome),
    Solve(SolveOutcome),
}

impl Case {
    /// Reads a case from a line. The line of a table's case begins with its shape.
    // No `FromStr`: what a case holds is kept on the heap, and `from_str` is given none.
    pub fn read(heap: Global, line: &str) -> Result<Case, Fault> {
        let mut words = Words::of(heap, line);
        let case = match words.word()? {
            "solve" => Case::Solve(SolveCase::read(&mut words)?),
            shape_name => Case::Table(TableCase::read(shape_name, &mut words)?),
        };
        words.end()?;
        Ok(case)
    }

    pub fn run(&self, heap: Global) -> Result<Outcome, Fault> {
        let outcome = match self {
            Case::Table(case) => Outcome::Table(case.shape.run(heap, case)?),
            Case::Solve(case) => Outcome::Solve(case.shape.run(heap, case)?),
        };
        Ok(outcome)
    }
}

impl fmt::Display for Outcome {
    fn fmt<W: fmt::Write>(&self, f: &mut fmt::Formatter<W>) -> fmt::Result {
        match self {
            Outcome::Table(outcome) => outcome.fmt(f),
            Outcome::Solve(outcome) => outcome.fmt(f),
        }
    }
}
