// The request `bundle`: the bytes of a bundle.
use crate::{print, request};
use std::io;
use std::io::Write;

pub(crate) fn answer<W: Write>(to: &mut W, fields: &[u8]) -> io::Result<()> {
    let b = request::bytes(fields);
    match bundles::check_bundle(b) {
        Err(r) => print::refusal(to, r)?,
        Ok(()) => print::text(to, b"OK")?,
    }
    print::end(to)
}
