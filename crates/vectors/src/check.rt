// The request `check`: a kind, a length size, and the bytes of a sample.
use crate::{print, request};
use std::io;
use std::io::Write;

pub(crate) fn answer<W: Write>(to: &mut W, fields: &[u8]) -> io::Result<()> {
    let kind = request::as_u32(request::number(fields, 0));
    let length_size = request::as_u32(request::number(fields, 1));
    let s = request::bytes(request::skip_numbers(fields, 2));
    match samples::check(kind, length_size, s) {
        Err(r) => print::refusal(to, r)?,
        Ok(()) => print::text(to, b"OK")?,
    }
    print::end(to)
}
