// The requests `salvage`: a kind, a length size, the bytes of a sample, and the rooms for the new sample and the list of changes; and
// `salvagein`: the bytes of a bundle, a sample number, and the rooms for these two and for the naming list.
use crate::{print, request};
use numbers::{Refusal, SampleNumber};
use salvage::{AllCounts, Counts};
use std::io;
use std::io::Write;

// What was answered, and whether the rest of each buffer is as it was.
fn print_sample<W: Write>(
    to: &mut W,
    salvaged: Result<Counts, Refusal>,
    out: &[u8; print::ROOM],
    changes: &[u8; print::ROOM],
) -> io::Result<()> {
    match salvaged {
        Err(r) => {
            print::refusal(to, r)?;
            print::changed(to, out, 0)?;
            print::changed(to, changes, 0)?;
        }
        Ok(c) => {
            print::text(to, b"OK")?;
            print::bytes(to, request::part(out, 0, c.sample))?;
            print::bytes(to, request::part(changes, 0, c.changes))?;
            print::changed(to, out, c.sample)?;
            print::changed(to, changes, c.changes)?;
        }
    }
    print::end(to)
}

fn print_all<W: Write>(
    to: &mut W,
    salvaged: Result<AllCounts, Refusal>,
    out: &[u8; print::ROOM],
    changes: &[u8; print::ROOM],
    names: &[u8; print::ROOM],
) -> io::Result<()> {
    match salvaged {
        Err(r) => {
            print::refusal(to, r)?;
            print::changed(to, out, 0)?;
            print::changed(to, changes, 0)?;
            print::changed(to, names, 0)?;
        }
        Ok(c) => {
            print::text(to, b"OK")?;
            print::bytes(to, request::part(out, 0, c.sample))?;
            print::bytes(to, request::part(changes, 0, c.changes))?;
            print::bytes(to, request::part(names, 0, c.names))?;
            print::changed(to, out, c.sample)?;
            print::changed(to, changes, c.changes)?;
            print::changed(to, names, c.names)?;
        }
    }
    print::end(to)
}

pub(crate) fn sample<W: Write>(to: &mut W, fields: &[u8]) -> io::Result<()> {
    let kind = request::as_u32(request::number(fields, 0));
    let length_size = request::as_u32(request::number(fields, 1));
    let rest = request::skip_numbers(fields, 2);
    let s = request::bytes(rest);
    let rooms = request::skip_bytes(rest);
    let room = request::number(rooms, 0);
    let list_room = request::number(rooms, 1);
    let mut out = [print::FILL; print::ROOM];
    let mut changes = [print::FILL; print::ROOM];
    if out.len() < room || changes.len() < list_room {
        return print::line(to, b"room too large");
    }
    let salvaged = salvage::salvage_sample(
        kind,
        length_size,
        s,
        &mut out[..room],
        &mut changes[..list_room],
    );
    print_sample(to, salvaged, &out, &changes)
}

pub(crate) fn bundle<W: Write>(to: &mut W, fields: &[u8]) -> io::Result<()> {
    let b = request::bytes(fields);
    let rest = request::skip_bytes(fields);
    let n = request::number(rest, 0);
    let room = request::number(rest, 1);
    let list_room = request::number(rest, 2);
    let names_room = request::number(rest, 3);
    let mut out = [print::FILL; print::ROOM];
    let mut changes = [print::FILL; print::ROOM];
    let mut names = [print::FILL; print::ROOM];
    if out.len() < room || changes.len() < list_room || names.len() < names_room {
        return print::line(to, b"room too large");
    }
    let salvaged = salvage::salvage(
        b,
        SampleNumber(n),
        &mut out[..room],
        &mut changes[..list_room],
        &mut names[..names_room],
    );
    print_all(to, salvaged, &out, &changes, &names)
}
