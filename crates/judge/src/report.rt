//! The judge's work on values: from the bytes of a chart and of procedures to what is printed.
ghost use Rattle.std.specs.Prelude.{◌≡◌, Some, None};
ghost use Rattle.foundation.specs.Bounds.{items};
ghost use Rattle.formulas.specs.Records.{entries};
ghost use Rattle.formulas.specs.Solutions.{settled_of};
ghost use Rattle.judge.specs.Reports.{Reported, held};
ghost use Rattle.judge.specs.Rows.{rows_of};
ghost use Rattle.judge.specs.Texts.{row_text, report_text};

use crate::fault::JudgeFault;
use formulas::procedure_set::ProcedureSet;
use formulas::solution::{MOST_ROUNDS, Solution};
use formulas::symbol::{Owner, PROCEDURES, Procedure};
use foundation::bounded::Bounded;
use rules::chart::Chart;
use rules::table::{EffectTable, MOST_EFFECTS};
use std::fmt;

/// Within how many rounds a solution is looked for: as many as can be allowed, so that a set is
/// refused as unsettled only where nobody could have it solved.
const ALLOWANCE: u32 = MOST_ROUNDS;

/// One for each procedure.
const MOST_ROWS: usize = PROCEDURES as usize;

/// What is told of one procedure.
#[derive(Clone, Copy)]
pub struct Row {
    procedure: Procedure,
    owner: Owner,
    clauses: usize,
}

impl fmt::Display for Row {
    ghost output = { λ r. Some (row_text r.procedure r.owner r.clauses) };

    fn fmt<W: fmt::Write>(&self, f: &mut fmt::Formatter<W>) -> fmt::Result {
        let letter = match self.owner {
            Owner::Station => "S",
            Owner::Field => "F",
        };
        write!(f, "{} {letter} {}", self.procedure, self.clauses)
    }
}

/// How many effects the chart has, at which round the procedures settled, and a row for each
/// procedure with a record.
#[derive(Clone, Copy)]
pub struct Report {
    effects: usize,
    rounds: u32,
    // No `Vec`: what `examine` refuses is what the files say, so that it may not want memory.
    rows: Bounded<Row, MOST_ROWS>,
}

impl Report {
    pub fn rows(&self) -> &[Row]
        ensures { result.now ≡ items self.now.rows }
    {
        self.rows.as_slice()
    }
}

/// The first line alone: the rows are lines of their own.
impl fmt::Display for Report {
    ghost output = { λ r. Some (report_text r.effects r.rounds) };

    fn fmt<W: fmt::Write>(&self, f: &mut fmt::Formatter<W>) -> fmt::Result {
        write!(f, "effects {} rounds {}", self.effects, self.rounds)
    }
}

/// Solves the procedures under the chart. `None` where the chart is good and there are no
/// procedures: a chart that is refused is told all the same.
pub fn examine(chart: &[u8], procs: Option<&[u8]>) -> Result<Option<Report>, JudgeFault>
    ensures { Reported chart.now (held procs.entry) result }
{
    let rule = Chart::new(chart)?;
    let Some(records) = procs else {
        return Ok(None);
    };
    let set = ProcedureSet::read(records)?;
    let mut met = [0; MOST_EFFECTS];
    let table = EffectTable::of(&rule, &mut met)?;
    let solution = Solution::of(&set, &table, ALLOWANCE)?;
    Ok(Some(Report {
        effects: table.effects(),
        rounds: solution.round(),
        rows: rows(&set, &solution),
    }))
}

/// A row for each procedure with a record, in rising number.
fn rows(set: &ProcedureSet, solution: &Solution) -> Bounded<Row, MOST_ROWS>
    ensures { items result ≡ rows_of (entries set.now) (settled_of solution.now).formulas }
{
    let mut told = Bounded::<Row, MOST_ROWS>::empty(Row {
        procedure: 0,
        owner: Owner::Station,
        clauses: 0,
    });
    for procedure in 0..PROCEDURES {
        if let Some(owner) = set.owner(procedure) {
            let clauses = solution.formula(procedure).clauses().len();
            let row = Row {
                procedure,
                owner,
                clauses,
            };
            told.push(row).unwrap();
        }
    }
    told
}
