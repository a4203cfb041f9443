//! The words of a line, with one blank between two of them.
//!
//! A list of numbers is joined by commas, and bytes are in lower-case base sixteen. Each is `-` where
//! it is empty.
use crate::fault::Fault;
use hex::FromHexError;
use std::alloc::{AllocError, Global};
use std::num::ParseIntError;
use std::str::{FromStr, Split};

const NOTHING: &str = "-";

/// The words of a line that are still to be read.
#[derive(Drop)]
pub struct Words<'a> {
    heap: Global,
    rest: Split<'a, char>,
}

impl<'a> Words<'a> {
    pub fn of(heap: Global, line: &'a str) -> Words<'a> {
        Words {
            heap,
            rest: line.split(' '),
        }
    }

    /// Where what is read is kept.
    pub fn heap(&self) -> Global {
        self.heap
    }

    pub fn word(&mut self) -> Result<&'a str, Fault> {
        self.rest
            .next()
            .filter(|word| !word.is_empty())
            .ok_or(Fault::Malformed)
    }

    pub fn number<N: FromStr<Err = ParseIntError>>(&mut self) -> Result<N, Fault> {
        read_number::<N>(self.word()?)
    }

    pub fn numbers(&mut self) -> Result<Vec<u8>, Fault> {
        read_numbers(self.heap, self.word()?)
    }

    pub fn bytes(&mut self) -> Result<Vec<u8>, Fault> {
        read_bytes(self.heap, self.word()?)
    }

    pub fn end(&mut self) -> Result<(), Fault> {
        match self.rest.next() {
            Some(_) => Err(Fault::Malformed),
            None => Ok(()),
        }
    }
}

/// A number in base ten. It has digits alone, so the sign that `parse` would take is refused.
pub fn read_number<N: FromStr<Err = ParseIntError>>(word: &str) -> Result<N, Fault> {
    if word.starts_with('+') {
        return Err(Fault::Malformed);
    }
    word.parse::<N>().map_err(|_| Fault::Malformed)
}

// No `try_collect`: long lists took up to half as long again by it.
pub fn read_numbers(heap: Global, word: &str) -> Result<Vec<u8>, Fault> {
    let mut numbers = Vec::new(heap);
    if word != NOTHING {
        word.split(',').try_for_each(|number| -> Result<(), Fault> {
            numbers.push(read_number::<u8>(number)?)?;
            Ok(())
        })?;
    }
    Ok(numbers)
}

/// Bytes in base sixteen, with small letters. All digits are looked at first, since `decode` would take
/// capitals too, and wants memory before it comes to a wrong digit.
fn read_bytes(heap: Global, word: &str) -> Result<Vec<u8>, Fault> {
    if word == NOTHING {
        return Ok(Vec::new(heap));
    }
    if !are_digits(word.as_bytes()) {
        return Err(Fault::Malformed);
    }
    hex::decode(heap, word).map_err(|error| match error {
        FromHexError::OutOfMemory => Fault::Memory(AllocError),
        _ => Fault::Malformed,
    })
}

/// Whether all bytes are digits of base sixteen. No `all`: a fold without a branch looks at many at once, and
/// with an early end a word that is right took twice the instructions.
fn are_digits(bytes: &[u8]) -> bool {
    bytes
        .iter()
        .fold(true, |so_far, byte| so_far & is_digit(*byte))
}

fn is_digit(byte: u8) -> bool {
    byte.is_ascii_digit() | (byte.wrapping_sub(b'a') < 6)
}
