// The request `from_stream`: a length size, the bytes of a byte stream, and the room for the sample.
use crate::{print, request};
use std::io;
use std::io::Write;

pub(crate) fn answer<W: Write>(to: &mut W, fields: &[u8]) -> io::Result<()> {
    let length_size = request::as_u32(request::number(fields, 0));
    let rest = request::skip_numbers(fields, 1);
    let s = request::bytes(rest);
    let room = request::number(request::skip_bytes(rest), 0);
    let mut out = [print::FILL; print::ROOM];
    if out.len() < room {
        return print::line(to, b"room too large");
    }
    let sample = stream_reader::from_stream(length_size, s, &mut out[..room]);
    print::answered(to, sample, &out)
}
