// The request `writerec`: a kind, the room, the fields of a record and its sets.
use crate::{print, request};
use record_rules::{Fields, Flag, High, Trailer};
use std::io;
use std::io::Write;

// complete_representation: 0 in an AVC record is none.
fn flag(kind: u32, complete: usize) -> Flag {
    match (complete, kind) {
        (0, 0) => Flag::Absent,
        (0, _) => Flag::Clear,
        _ => Flag::Set,
    }
}

// The trailer: none, absent, or there with its values.
fn trailer(s: &[u8]) -> Trailer {
    match request::number(s, 0) {
        0 => Trailer::None,
        1 => Trailer::Absent,
        _ => Trailer::Present(High {
            format: request::number(s, 1),
            luma: request::number(s, 2),
            chroma: request::number(s, 3),
            extensions: request::number(s, 4),
        }),
    }
}

// The fields of the record: from profile on, from the number of picture sets on, from the trailer on.
fn fields_of(kind: u32, front: &[u8], pictures: &[u8], last: &[u8]) -> Fields {
    Fields {
        profile: request::number(front, 0),
        compatibility: request::number(front, 1),
        level: request::number(front, 2),
        complete: flag(kind, request::number(front, 3)),
        // from the length size less one
        length_size: request::number(front, 4).saturating_add(1),
        sequences: request::number(front, 5),
        pictures: request::number(pictures, 0),
        trailer: trailer(last),
    }
}

pub(crate) fn answer<W: Write>(to: &mut W, fields: &[u8]) -> io::Result<()> {
    let kind = request::as_u32(request::number(fields, 0));
    let room = request::number(fields, 1);
    let front = request::skip_numbers(fields, 2);
    let sequence_sets = request::skip_numbers(front, 6);
    let pictures = request::skip_bytes(sequence_sets);
    let picture_sets = request::skip_numbers(pictures, 1);
    let last = request::skip_bytes(picture_sets);
    let extension_sets = request::skip_numbers(last, 5);
    let f = fields_of(kind, front, pictures, last);
    let a = request::bytes(sequence_sets);
    let b = request::bytes(picture_sets);
    let x = request::bytes(extension_sets);
    let mut out = [print::FILL; 1024];
    if out.len() < room {
        return print::line(to, b"room too large");
    }
    let written = record_writer::write(kind, f, a, b, x, &mut out[..room]);
    print::answered(to, written, &out)
}
