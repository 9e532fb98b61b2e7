// Writing decoder configuration records.
#![tactic(auto)]

mod fitting;
mod putting;

ghost use Rattle.std.specs.Prelude.{length};
ghost use Rattle.words.specs.Buffers.{Wrote, within};
ghost use Rattle.numbers.specs.Answers.{answer_of};
ghost use Rattle.record_writer.specs.Write.{write_as, write_record};

use numbers::{Fault, Kind, Refusal};
use record_rules::Fields;

// How many bytes of a record stand neither in sets nor in a trailer: its head, and the number of picture sets.
const FRONT: usize = 7;

// What is known of a trailer at the end of a record.
#[derive(Clone, Copy)]
struct Facts {
    // how many bytes stand before its sets
    pub head: usize,
    // how many sets there are
    pub sets: usize,
    // its numbers fit their bits
    pub fits: bool,
    // it may end a record of that kind and profile
    pub belongs: bool,
}

// A record of a known kind: its fields, its sequence sets, its picture sets and its trailer's sets.
pub fn write_as(
    k: Kind,
    f: Fields,
    sequences: &[u8],
    pictures: &[u8],
    extensions: &[u8],
    out: &mut [u8],
) -> Result<usize, Refusal>
    ensures { Wrote out.old out.new (answer_of result) (within (length out.old) (write_as k f sequences.now pictures.now extensions.now)) }
{
    if !fitting::fit(k, f, sequences, pictures, extensions) {
        return Err(Refusal::at(Fault::FieldsFitNoRecord, 0));
    }
    let facts = fitting::facts_of(k, f.profile, f.trailer);
    let head = FRONT + facts.head;
    let room = putting::room_for(
        out.len(),
        head,
        sequences.len(),
        pictures.len(),
        extensions.len(),
    );
    let n = room.ok_or(Refusal::at(Fault::OutputTooLong, 0))?;
    putting::put_record(k, f, sequences, pictures, facts.head, extensions, out);
    Ok(n)
}

// The same by a kind's number: 0 AVC, 1 SVC.
#[tactic(auto, unfolding(crate::specs::Write::write_record))]
pub fn write(
    kind: u32,
    f: Fields,
    sequences: &[u8],
    pictures: &[u8],
    extensions: &[u8],
    out: &mut [u8],
) -> Result<usize, Refusal>
    ensures { Wrote out.old out.new (answer_of result) (write_record kind f sequences.now pictures.now extensions.now (length out.old)) }
{
    match Kind::from_number(kind) {
        None => Err(Refusal::at(Fault::UnknownKind, 0)),
        Some(k) => write_as(k, f, sequences, pictures, extensions, out),
    }
}
