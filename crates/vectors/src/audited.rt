// The request `audit`: the bytes of a bundle, and the room for the lines.
use crate::{print, request};
use audit::Report;
use numbers::Refusal;
use std::io;
use std::io::Write;

// What was answered, and whether the rest of the buffer is as it was.
fn print_audited<W: Write>(
    to: &mut W,
    audited: Result<Report, Refusal>,
    lines: &[u8; print::ROOM],
) -> io::Result<()> {
    match audited {
        Err(r) => {
            print::refusal(to, r)?;
            print::changed(to, lines, 0)?;
        }
        Ok(report) => {
            let tally = report.tally;
            print::text(to, b"OK")?;
            print::bytes(to, request::part(lines, 0, report.count))?;
            write!(to, " {} {} {}", tally.passed, tally.empty, tally.refused)?;
            print::changed(to, lines, report.count)?;
        }
    }
    print::end(to)
}

pub(crate) fn answer<W: Write>(to: &mut W, fields: &[u8]) -> io::Result<()> {
    let b = request::bytes(fields);
    let room = request::number(request::skip_bytes(fields), 0);
    let mut lines = [print::FILL; print::ROOM];
    if lines.len() < room {
        return print::line(to, b"room too large");
    }
    let audited = audit::audit(b, &mut lines[..room]);
    print_audited(to, audited, &lines)
}
