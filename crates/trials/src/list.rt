//! Items with a comma between two of them.
ghost use Rattle.std.specs.Iterator.{IsFinite};

use std::fmt;
use std::fmt::Display;

/// Writes the items of an iterator that ends, and nothing where it has none.
pub(crate) fn write_list<I: Iterator, W: fmt::Write>(
    mut items: I,
    f: &mut fmt::Formatter<W>,
) -> fmt::Result
where
    I::Item: Display + Drop,
    requires can { I.can_next items }
    requires finite { IsFinite (I.remaining items) }
{
    let Some(first) = items.next() else {
        return Ok(());
    };
    write!(f, "{first}")?;
    for item in items {
        write!(f, ",{item}")?;
    }
    Ok(())
}
