// The request `units`: the bytes of a bundle, a sample number, and the room for where its delivered units stand, in numbers.
use crate::{print, request};
use numbers::{Refusal, SampleNumber};
use std::io;
use std::io::Write;

// What the numbers are before they are lent.
const FILL: u64 = 0xEEEEEEEEEEEEEEEE;

// The first n numbers.
fn print_first<W: Write>(to: &mut W, s: &[u64], n: usize) -> io::Result<()> {
    for x in s.iter().take(n) {
        write!(to, " {x}")?;
    }
    Ok(())
}

// A word where numbers changed from a place on, and the end of the line.
fn end<W: Write>(to: &mut W, s: &[u64], from: usize) -> io::Result<()> {
    print::changed_from(to, s, from, &FILL)?;
    print::end(to)
}

// What was answered, and whether the rest of the numbers is as it was.
fn print_placed<W: Write>(
    to: &mut W,
    placed: Result<usize, Refusal>,
    out: &[u64; 1024],
) -> io::Result<()> {
    match placed {
        Err(r) => {
            print::refusal(to, r)?;
            end(to, out, 0)
        }
        Ok(n) => {
            print::text(to, b"OK")?;
            print_first(to, out, n)?;
            end(to, out, n)
        }
    }
}

pub(crate) fn answer<W: Write>(to: &mut W, fields: &[u8]) -> io::Result<()> {
    let b = request::bytes(fields);
    let rest = request::skip_bytes(fields);
    let n = request::number(rest, 0);
    let room = request::number(rest, 1);
    let mut out = [FILL; 1024];
    if out.len() < room {
        return print::line(to, b"room too large");
    }
    let placed = unit_parts::unit_parts(b, SampleNumber(n), &mut out[..room]);
    print_placed(to, placed, &out)
}
