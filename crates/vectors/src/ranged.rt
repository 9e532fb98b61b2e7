// The request `range`: the bytes of a bundle, the numbers of the first sample and of the last, and the rooms for the output and the lines.
use crate::{print, request};
use numbers::{Refusal, SampleNumber};
use range::Counts;
use std::io;
use std::io::Write;

// What was answered, and whether the rest of each buffer is as it was.
fn print_ranged<W: Write>(
    to: &mut W,
    ranged: Result<Counts, Refusal>,
    out: &[u8; print::ROOM],
    lines: &[u8; print::ROOM],
) -> io::Result<()> {
    match ranged {
        Err(r) => {
            print::refusal(to, r)?;
            print::changed(to, out, 0)?;
            print::changed(to, lines, 0)?;
        }
        Ok(c) => {
            print::text(to, b"OK")?;
            print::bytes(to, request::part(out, 0, c.output))?;
            print::bytes(to, request::part(lines, 0, c.lines))?;
            print::changed(to, out, c.output)?;
            print::changed(to, lines, c.lines)?;
        }
    }
    print::end(to)
}

pub(crate) fn answer<W: Write>(to: &mut W, fields: &[u8]) -> io::Result<()> {
    let b = request::bytes(fields);
    let rest = request::skip_bytes(fields);
    let first = request::number(rest, 0);
    let last = request::number(rest, 1);
    let room = request::number(rest, 2);
    let lines_room = request::number(rest, 3);
    let mut out = [print::FILL; print::ROOM];
    let mut lines = [print::FILL; print::ROOM];
    if out.len() < room || lines.len() < lines_room {
        return print::line(to, b"room too large");
    }
    let ranged = range::range(
        b,
        SampleNumber(first),
        SampleNumber(last),
        &mut out[..room],
        &mut lines[..lines_room],
    );
    print_ranged(to, ranged, &out, &lines)
}
