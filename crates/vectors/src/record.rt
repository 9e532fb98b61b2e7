// The request `record`: a kind and the bytes of a record.
use crate::{print, request};
use record_rules::{Flag, Part, Record, Trailer};
use std::io;
use std::io::Write;

fn print_flag<W: Write>(to: &mut W, flag: Flag) -> io::Result<()> {
    match flag {
        Flag::Absent => print::text(to, b" -"),
        Flag::Clear => print::number(to, 0),
        Flag::Set => print::number(to, 1),
    }
}

// A count of sets, and the sets as they stand in the record s.
fn print_sets<W: Write>(to: &mut W, s: &[u8], count: usize, sets: Part) -> io::Result<()> {
    let start = sets.start;
    print::number(to, count)?;
    print::bytes(to, request::part(s, start.0, sets.len))
}

fn print_trailer<W: Write>(to: &mut W, s: &[u8], trailer: Trailer, sets: Part) -> io::Result<()> {
    match trailer {
        Trailer::None => print::text(to, b" none"),
        Trailer::Absent => print::text(to, b" absent"),
        Trailer::Present(high) => {
            print::number(to, high.format)?;
            print::number(to, high.luma)?;
            print::number(to, high.chroma)?;
            print_sets(to, s, high.extensions, sets)
        }
    }
}

// What the record s holds.
fn print_record<W: Write>(to: &mut W, s: &[u8], r: Record) -> io::Result<()> {
    let f = r.fields;
    let complete = f.complete;
    let trailer = f.trailer;
    let sequences = r.sequences;
    let pictures = r.pictures;
    let extensions = r.extensions;
    print::text(to, b"OK")?;
    print::number(to, f.profile)?;
    print::number(to, f.compatibility)?;
    print::number(to, f.level)?;
    print_flag(to, complete)?;
    print::number(to, f.length_size)?;
    print_sets(to, s, f.sequences, sequences)?;
    print_sets(to, s, f.pictures, pictures)?;
    print_trailer(to, s, trailer, extensions)
}

pub(crate) fn answer<W: Write>(to: &mut W, fields: &[u8]) -> io::Result<()> {
    let kind = request::as_u32(request::number(fields, 0));
    let s = request::bytes(request::skip_numbers(fields, 1));
    match records::read(kind, s) {
        Err(r) => print::refusal(to, r)?,
        Ok(r) => print_record(to, s, r)?,
    }
    print::end(to)
}
