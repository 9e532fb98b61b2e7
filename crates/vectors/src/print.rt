// The parts of an answer line.
use crate::request;
use numbers::Refusal;
use std::io;
use std::io::Write;

// What a buffer is filled with before it is lent.
pub(crate) const FILL: u8 = 0xEE;

// The bytes of a buffer that is lent.
pub(crate) const ROOM: usize = 100000;

// Text as it stands.
pub(crate) fn text<W: Write>(to: &mut W, s: &[u8]) -> io::Result<()> {
    to.write_all(s)
}

// The end of a line.
pub(crate) fn end<W: Write>(to: &mut W) -> io::Result<()> {
    text(to, b"\n")
}

// A line that is text alone.
pub(crate) fn line<W: Write>(to: &mut W, s: &[u8]) -> io::Result<()> {
    text(to, s)?;
    end(to)
}

// A number, after a space.
pub(crate) fn number<W: Write>(to: &mut W, n: usize) -> io::Result<()> {
    write!(to, " {n}")
}

// Bytes in hexadecimal.
fn digits<W: Write>(to: &mut W, s: &[u8]) -> io::Result<()> {
    for b in s {
        write!(to, "{b:02x}")?;
    }
    Ok(())
}

// Bytes in hexadecimal, after a space; `-` for none.
pub(crate) fn bytes<W: Write>(to: &mut W, s: &[u8]) -> io::Result<()> {
    text(to, b" ")?;
    if s.is_empty() {
        text(to, b"-")?;
    }
    digits(to, s)
}

// A refusal.
pub(crate) fn refusal<W: Write>(to: &mut W, r: Refusal) -> io::Result<()> {
    write!(to, "R {} {}", r.number, r.place.0)
}

// A word where a lent buffer changed from a place on, which was filled with an element over and over.
pub(crate) fn changed_from<W: Write, T: PartialEq>(
    to: &mut W,
    s: &[T],
    from: usize,
    fill: &T,
) -> io::Result<()> {
    if s.iter().skip(from).any(|x| x != fill) {
        text(to, b" CHANGED")?;
    }
    Ok(())
}

// The same of bytes: past the count, or anywhere after a refusal.
pub(crate) fn changed<W: Write>(to: &mut W, s: &[u8], from: usize) -> io::Result<()> {
    changed_from(to, s, from, &FILL)
}

// The line of a call that refused: the refusal, and whether the lent buffer is as it was.
pub(crate) fn refused<W: Write>(to: &mut W, r: Refusal, out: &[u8]) -> io::Result<()> {
    refusal(to, r)?;
    changed(to, out, 0)?;
    end(to)
}

// The line of a call that wrote n bytes: the bytes, and whether the rest of the lent buffer is as it was.
pub(crate) fn written<W: Write>(to: &mut W, out: &[u8], n: usize) -> io::Result<()> {
    text(to, b"OK")?;
    bytes(to, request::part(out, 0, n))?;
    changed(to, out, n)?;
    end(to)
}

// The line of a call that writes to a lent buffer.
pub(crate) fn answered<W: Write>(
    to: &mut W,
    answer: Result<usize, Refusal>,
    out: &[u8],
) -> io::Result<()> {
    match answer {
        Err(r) => refused(to, r, out),
        Ok(n) => written(to, out, n),
    }
}
