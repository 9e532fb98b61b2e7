// The request `base`: the bytes of a bundle, a sample number and a track number. What the search for the base of the sample in the track
// finds, by its number within the track, 0 for none, and its rounds.
use crate::{print, request};
use numbers::{SampleNumber, TrackNumber};
use std::io;
use std::io::Write;

pub(crate) fn answer<W: Write>(to: &mut W, fields: &[u8]) -> io::Result<()> {
    let b = request::bytes(fields);
    let rest = request::skip_bytes(fields);
    let n = request::number(rest, 0);
    let k = request::number(rest, 1);
    let mut t = [0u64; tables::TABLE_SIZE];
    match filling::fill_table(b, &mut t) {
        Err(r) => print::refusal(to, r)?,
        Ok(()) => {
            let search = links::find_base(&t, SampleNumber(n), TrackNumber(k));
            write!(to, "OK {} {}", search.found, search.rounds)?;
        }
    }
    print::end(to)
}
