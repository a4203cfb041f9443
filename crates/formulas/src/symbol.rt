//! What bodies and forms are made of.
ghost use Rattle.std.specs.Prelude.{◌≡◌};
ghost use Rattle.std.specs.Result.{result_ok};
ghost use Rattle.formulas.specs.RecordForms.{symbol_in, owner_in};

use rules::rule::Command;

/// The number of a procedure, 0 to 31.
pub type Procedure = u8;

/// How many procedures have a number.
pub const PROCEDURES: Procedure = 32;

#[derive(Clone, Copy)]
pub enum Symbol {
    Command(Command),
    Procedure(Procedure),
}

/// A byte that stands for no symbol.
#[derive(Clone, Copy, Debug, PartialEq, Eq)]
pub struct UnknownSymbol;

/// The symbol that a byte of a body or a form stands for.
impl TryFrom<u8> for Symbol {
    type Error = UnknownSymbol;

    ghost try_from_gives = { λ byte result. result_ok result ≡ symbol_in byte };

    fn try_from(byte: u8) -> Result<Symbol, UnknownSymbol> {
        match byte {
            0..=15 => Ok(Symbol::Command(byte)),
            32..=63 => Ok(Symbol::Procedure(byte - 32)),
            _ => Err(UnknownSymbol),
        }
    }
}

/// The side that takes a procedure's branches.
#[derive(Clone, Copy, PartialEq, Eq)]
pub enum Owner {
    Station,
    Field,
}

/// A byte that stands for no owner; another error than for a symbol, so that a caller can tell them apart.
#[derive(Clone, Copy, Debug, PartialEq, Eq)]
pub struct UnknownOwner;

impl TryFrom<u8> for Owner {
    type Error = UnknownOwner;

    ghost try_from_gives = { λ byte result. result_ok result ≡ owner_in byte };

    fn try_from(byte: u8) -> Result<Owner, UnknownOwner> {
        match byte {
            0 => Ok(Owner::Station),
            1 => Ok(Owner::Field),
            _ => Err(UnknownOwner),
        }
    }
}
