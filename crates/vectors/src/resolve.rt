// The requests `resolve` and `stream`: the bytes of a bundle, a sample number, and the room for the output.
use crate::{print, request};
use numbers::{Refusal, SampleNumber};
use std::io;
use std::io::Write;

// What a call answers that writes the units of a sample.
fn answer<W: Write, F: FnOnce(&[u8], SampleNumber, &mut [u8]) -> Result<usize, Refusal>>(
    to: &mut W,
    fields: &[u8],
    write_units: F,
) -> io::Result<()>
    requires { F.IsAlwaysCallable write_units }
{
    let b = request::bytes(fields);
    let rest = request::skip_bytes(fields);
    let n = request::number(rest, 0);
    let room = request::number(rest, 1);
    let mut out = [print::FILL; print::ROOM];
    if out.len() < room {
        return print::line(to, b"room too large");
    }
    let written = write_units(b, SampleNumber(n), &mut out[..room]);
    print::answered(to, written, &out)
}

// Each unit after its length.
pub(crate) fn resolve<W: Write>(to: &mut W, fields: &[u8]) -> io::Result<()> {
    answer(to, fields, resolution::resolve)
}

// As a byte stream.
pub(crate) fn stream<W: Write>(to: &mut W, fields: &[u8]) -> io::Result<()> {
    answer(to, fields, resolution::stream)
}
