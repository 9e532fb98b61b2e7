// The requests `counts`, `track`, `reference` and `sample`: the bytes of a bundle, and which track, reference or sample it is.
use crate::{print, request};
use contents::{Reference, SampleEntry, TrackEntry};
use numbers::{SampleNumber, TrackNumber};
use std::io;
use std::io::Write;

pub(crate) fn counts<W: Write>(to: &mut W, fields: &[u8]) -> io::Result<()> {
    match contents::bundle_counts(request::bytes(fields)) {
        Err(r) => print::refusal(to, r)?,
        Ok(c) => write!(to, "OK {} {} {}", c.tracks, c.references, c.samples)?,
    }
    print::end(to)
}

fn print_track<W: Write>(to: &mut W, e: TrackEntry) -> io::Result<()> {
    write!(to, "OK {} {} {}", e.kind as u8, e.start.0, e.size)
}

pub(crate) fn track<W: Write>(to: &mut W, fields: &[u8]) -> io::Result<()> {
    let b = request::bytes(fields);
    let k = request::number(request::skip_bytes(fields), 0);
    match contents::track_entry(b, TrackNumber(k)) {
        Err(r) => print::refusal(to, r)?,
        Ok(e) => print_track(to, e)?,
    }
    print::end(to)
}

fn print_reference<W: Write>(to: &mut W, e: Reference) -> io::Result<()> {
    write!(to, "OK {} {}", e.from.0, e.to.0)
}

pub(crate) fn reference<W: Write>(to: &mut W, fields: &[u8]) -> io::Result<()> {
    let b = request::bytes(fields);
    let i = request::number(request::skip_bytes(fields), 0);
    match contents::reference_entry(b, i) {
        Err(r) => print::refusal(to, r)?,
        Ok(e) => print_reference(to, e)?,
    }
    print::end(to)
}

fn print_sample<W: Write>(to: &mut W, e: SampleEntry) -> io::Result<()> {
    write!(to, "OK {} {} {} {}", e.track.0, e.time, e.start.0, e.size)
}

pub(crate) fn sample<W: Write>(to: &mut W, fields: &[u8]) -> io::Result<()> {
    let b = request::bytes(fields);
    let n = request::number(request::skip_bytes(fields), 0);
    match contents::sample_entry(b, SampleNumber(n)) {
        Err(r) => print::refusal(to, r)?,
        Ok(e) => print_sample(to, e)?,
    }
    print::end(to)
}
