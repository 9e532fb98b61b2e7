// The request `unit`: the bytes of a bundle, a sample number, and the number of a delivered unit.
use crate::{print, request};
use numbers::SampleNumber;
use std::io;
use std::io::Write;

pub(crate) fn answer<W: Write>(to: &mut W, fields: &[u8]) -> io::Result<()> {
    let b = request::bytes(fields);
    let rest = request::skip_bytes(fields);
    let n = request::number(rest, 0);
    let k = request::number(rest, 1);
    match delivered_unit::unit_answer(b, SampleNumber(n), k) {
        Err(r) => print::refusal(to, r)?,
        Ok(_) => {
            print::text(to, b"OK")?;
            print::bytes(to, delivered_unit::unit_bytes(b, SampleNumber(n), k))?;
        }
    }
    print::end(to)
}
