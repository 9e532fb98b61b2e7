// The audit of a bundle as text.
use crate::text;
use audit_lines::Line;
use numbers::SampleNumber;
use std::io;
use std::io::Write;
use tally::Tally;

// The line of sample n, as `1 passed 1`, `3 empty` or `4 refused 26 at 0`.
fn print_line<W: Write>(to: &mut W, n: usize, line: Line) -> io::Result<()> {
    match line {
        Line::Passed(units) => writeln!(to, "{n} passed {units}"),
        Line::Empty => writeln!(to, "{n} empty"),
        Line::Refused(r) => {
            write!(to, "{n} ")?;
            text::refusal(to, r)
        }
        // does not come: the lines are those of the audit
        Line::NoLine => writeln!(to, "{n} no line"),
    }
}

// A line a sample. The table tells how many there are and how long each is.
fn print_lines<W: Write>(
    to: &mut W,
    b: &[u8],
    t: &[u64; tables::TABLE_SIZE],
    lines: &[u8; audit_buffers::LINES_SIZE],
) -> io::Result<()> {
    for n in 1..=sample_tables::sample_count(t) {
        let x = sample_tables::sample_bytes(b, t, SampleNumber(n));
        print_line(to, n, audit_lines::line_of(lines, SampleNumber(n), x.len()))?;
    }
    Ok(())
}

// The last line.
fn print_tally<W: Write>(to: &mut W, tally: Tally) -> io::Result<()> {
    writeln!(
        to,
        "passed {} empty {} refused {}",
        tally.passed, tally.empty, tally.refused
    )
}

// The lines of an audited bundle.
fn print_samples<W: Write>(
    to: &mut W,
    b: &[u8],
    lines: &[u8; audit_buffers::LINES_SIZE],
) -> io::Result<()> {
    let mut t = [0u64; tables::TABLE_SIZE];
    audit_buffers::fill(b, &mut t);
    print_lines(to, b, &t, lines)
}

// Prints the audit of a bundle: a line a sample and a line with the tally, or one line where the bundle is refused.
pub fn print_audit<W: Write>(to: &mut W, b: &[u8]) -> io::Result<()> {
    let mut lines = [0u8; audit_buffers::LINES_SIZE];
    match audit_buffers::audit_whole(b, &mut lines) {
        Err(r) => text::refused(to, r),
        Ok(report) => {
            print_samples(to, b, &lines)?;
            print_tally(to, report.tally)
        }
    }
}
