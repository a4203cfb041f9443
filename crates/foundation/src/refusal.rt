//! How a refusal is told outside: by number, layer and place.
ghost use Rattle.std.specs.Prelude.{◌++◌, Some, codes, decimal};
ghost use Rattle.foundation.specs.Refusals.{layer_name, refusal_text};

use std::fmt;

/// The part of the solver that refused.
#[derive(Clone, Copy, PartialEq, Eq, Debug)]
pub enum Layer {
    Records,
    Rule,
    Effects,
    Solve,
}

impl fmt::Display for Layer {
    ghost output = { λ l. Some (layer_name l) };

    fn fmt<W: fmt::Write>(&self, f: &mut fmt::Formatter<W>) -> fmt::Result {
        match self {
            Layer::Records => write!(f, "records"),
            Layer::Rule => write!(f, "rule"),
            Layer::Effects => write!(f, "effects"),
            Layer::Solve => write!(f, "solve"),
        }
    }
}

/// A refusal as it is told outside.
#[derive(Clone, Copy, PartialEq, Eq, Debug)]
pub struct Refusal {
    /// A number and no enum: it is what is told outside, and each fault says which one is its own.
    pub number: u8,
    pub layer: Layer,
    pub place: usize,
}

impl fmt::Display for Refusal {
    ghost output = { λ r. Some (refusal_text r) };

    fn fmt<W: fmt::Write>(&self, f: &mut fmt::Formatter<W>) -> fmt::Result {
        let number = self.number;
        let layer = self.layer;
        let place = self.place;
        write!(f, "refused {number} {layer} {place}")
    }
}
