//! Making a chart from its records.
ghost use Rattle.std.specs.Prelude.{◌≡◌, MatchOption, MatchResult};
ghost use Rattle.rules.specs.Automata.{Formed, Chartable, Unchartable};
ghost use Rattle.rules.specs.Boxes.{Charts};
ghost use Rattle.rules.specs.ChartRecords.{Reads, Inside, drawn_boxes, drawn_finals};
ghost use Rattle.rules.specs.contracts.chart.ChartOrderRule.TheImpl.{ghosts};

use crate::chart::Chart;
use crate::fault::RuleFault;
use crate::rule::MOST_COMMANDS;

/// That a procedure set's records have as many bytes is chance.
const RECORD_LEN: usize = 12;

const MOST_RECORDS: usize = 1024;

/// One record of a chart.
#[derive(Clone, Copy)]
enum ChartRecord {
    Arrow { from: u8, command: u8, to: u8 },
    Final { state: u8 },
}

impl ChartRecord {
    // No `TryFrom`: it parses bytes of a format, which `read` says at its caller and `try_from` would not.
    fn read(bytes: &[u8]) -> Option<ChartRecord>
        ensures { MatchOption result (¬ Formed bytes.now) (Reads bytes.now) }
    {
        match bytes {
            &[0, from, command, to, 255, 255, 255, 255, 255, 255, 255, 255]
                if from < 8 && command < 16 && to < 8 => {
                Some(ChartRecord::Arrow { from, command, to })
            }
            &[1, state, 255, 255, 255, 255, 255, 255, 255, 255, 255, 255] if state < 8 => {
                Some(ChartRecord::Final { state })
            }
            _ => None,
        }
    }
}

impl Chart {
    /// A chart from its records, 12 bytes each, back to back.
    // No `TryFrom`, so that a chart is made by `new` as a count and a pair are.
    pub fn new(bytes: &[u8]) -> Result<Chart, RuleFault>
        ensures { MatchResult result (λ x. Chartable bytes.now × Charts bytes.now (ghosts.meaning x)) (λ f. Unchartable bytes.now f) }
    {
        let whole = bytes.len() / RECORD_LEN;
        if bytes.len() % RECORD_LEN != 0 || whole > MOST_RECORDS {
            return Err(RuleFault::ChartLength(whole));
        }
        let mut chart = Chart {
            boxes: [0; MOST_COMMANDS],
            finals: [false; 8],
        };
        for (i, record) in bytes.chunks_exact(RECORD_LEN).enumerate() {
            chart.draw(ChartRecord::read(record).ok_or(RuleFault::ChartRecord(i))?);
        }
        Ok(chart)
    }

    fn draw(&mut self, item: ChartRecord)
        requires { Inside item }
        ensures boxes { self.new.boxes ≡ drawn_boxes item self.old.boxes }
        ensures finals { self.new.finals ≡ drawn_finals item self.old.finals }
    {
        match item {
            ChartRecord::Arrow { from, command, to } => {
                self.boxes[usize::from(command)] |= 1 << (8 * from + to);
            }
            ChartRecord::Final { state } => {
                self.finals[usize::from(state)] = true;
            }
        }
    }
}
