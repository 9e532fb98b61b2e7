// The request `names`: the bytes of a bundle, a sample number, and the room for the naming list.
use crate::{print, request};
use numbers::SampleNumber;
use std::io;
use std::io::Write;

pub(crate) fn answer<W: Write>(to: &mut W, fields: &[u8]) -> io::Result<()> {
    let b = request::bytes(fields);
    let rest = request::skip_bytes(fields);
    let n = request::number(rest, 0);
    let room = request::number(rest, 1);
    let mut out = [print::FILL; print::ROOM];
    if out.len() < room {
        return print::line(to, b"room too large");
    }
    let listed = naming_list::names(b, SampleNumber(n), &mut out[..room]);
    print::answered(to, listed, &out)
}
