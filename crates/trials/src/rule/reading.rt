//! Reading the parts of a rule: a chart is bytes in lower-case base sixteen, and a count is
//! `MODULUS:PERMITTED:WEIGHTS`.
use crate::fault::Fault;
use crate::rule::{ChartPart, CountPart, Shape};
use crate::words::{Words, read_number, read_numbers};
use std::alloc::Global;

impl Shape {
    /// Reads the parts of the named shape.
    // No `FromStr`: the parts are the next words of the line, and `from_str` is given one text.
    pub fn read(name: &str, words: &mut Words<'_>) -> Result<Shape, Fault> {
        let shape = match name {
            "chart" => Shape::Chart(chart(words)?),
            "count" => Shape::Count(count(words)?),
            "count+count" => Shape::CountAndCount(count(words)?, count(words)?),
            "chart+count" => Shape::ChartAndCount(chart(words)?, count(words)?),
            "count+(chart+count)" => {
                Shape::CountAndPair(count(words)?, chart(words)?, count(words)?)
            }
            "(count+count)+count" => {
                Shape::PairAndCount(count(words)?, count(words)?, count(words)?)
            }
            _ => return Err(Fault::Malformed),
        };
        Ok(shape)
    }
}

fn chart(words: &mut Words<'_>) -> Result<ChartPart, Fault> {
    Ok(ChartPart {
        bytes: words.bytes()?,
    })
}

fn count(words: &mut Words<'_>) -> Result<CountPart, Fault> {
    let heap = words.heap();
    read_count(heap, words.word()?)
}

fn read_count(heap: Global, word: &str) -> Result<CountPart, Fault> {
    let (modulus, rest) = word.split_once(':').ok_or(Fault::Malformed)?;
    let (permitted, weights) = rest.split_once(':').ok_or(Fault::Malformed)?;
    Ok(CountPart {
        modulus: read_number::<u8>(modulus)?,
        permitted: read_number::<u64>(permitted)?,
        weights: read_numbers(heap, weights)?,
    })
}
