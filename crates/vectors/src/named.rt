// The request `named`: the bytes of a bundle, a sample number, and the place of an extractor in the sample.
use crate::{print, request};
use numbers::{ByteOffset, SampleNumber};
use std::io;
use std::io::Write;

pub(crate) fn answer<W: Write>(to: &mut W, fields: &[u8]) -> io::Result<()> {
    let b = request::bytes(fields);
    let rest = request::skip_bytes(fields);
    let n = request::number(rest, 0);
    let at = request::number(rest, 1);
    match named_sample::named_sample(b, SampleNumber(n), ByteOffset(at)) {
        Err(r) => print::refusal(to, r)?,
        Ok(s) => write!(to, "OK {}", s.0)?,
    }
    print::end(to)
}
