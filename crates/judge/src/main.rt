//! The judge: solves the procedures of `procs.rec` in its folder under the chart of `chart.rec`,
//! and prints a line for the whole and one for each procedure.
#![tactic(auto)]

mod fault;
mod files;
mod report;

use crate::files::read_front;
use crate::report::{Report, examine};
use foundation::refusal::Refusal;
use std::io;

fn main(rt: HostRuntime) -> io::Result<()> {
    let Some(chart) = read_front(&rt, "chart.rec")? else {
        return println!(rt; "no file");
    };
    let procs = read_front(&rt, "procs.rec")?;
    // The chart is examined also where the second file is missing, since its refusal comes first.
    match examine(chart.as_slice(), procs.as_deref()) {
        Ok(None) => println!(rt; "no file"),
        Ok(Some(report)) => print_report(&rt, &report),
        Err(fault) => println!(rt; "{}", Refusal::from(fault)),
    }
}

/// The line of the whole, and a line for each procedure.
fn print_report(rt: &HostRuntime, report: &Report) -> io::Result<()> {
    println!(rt; "{report}")?;
    for row in report.rows() {
        println!(rt; "{row}")?;
    }
    Ok(())
}
