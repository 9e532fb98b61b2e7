// The parts of a line of what is written.
use numbers::{Refusal, refusals};
use std::io;
use std::io::Write;

// A refusal by its number and place, and the end of the line.
pub(crate) fn refusal<W: Write>(to: &mut W, r: Refusal) -> io::Result<()> {
    writeln!(to, "refused {} at {}", r.number, r.place.0)
}

// A line that refuses a call on a bundle; it says so where the refusal is the bundle's own.
pub(crate) fn refused<W: Write>(to: &mut W, r: Refusal) -> io::Result<()> {
    if refusals::of_bundle()
        .iter()
        .any(|fault| fault.number() == r.number)
    {
        write!(to, "bundle ")?;
    }
    refusal(to, r)
}

// Says that the input is more than the programs take.
pub fn print_too_big<W: Write>(to: &mut W) -> io::Result<()> {
    writeln!(to, "bundle too big for this program")
}
