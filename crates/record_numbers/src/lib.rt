// Decoder configuration records as 18 numbers.
#![tactic(auto)]

mod reading;
mod writing;

ghost use Rattle.std.specs.Prelude.{length};
ghost use Rattle.words.specs.Buffers.{Wrote};
ghost use Rattle.numbers.specs.Answers.{answer_of};
ghost use Rattle.record_numbers.specs.Numbers.{read_numbers, write_numbers};

use numbers::{Fault, Kind, Refusal};

// How many numbers a record is.
pub const NUMBER_COUNT: usize = 18;

// What number 11 says of a trailer.
const TRAILER_NONE: u64 = 0;

const TRAILER_ABSENT: u64 = 1;

const TRAILER_PRESENT: u64 = 2;

// A record read as numbers, by a kind's number: 4, 8 to 13, 29; or the numbers over the start of the slice. After a refusal the slice is
// as it was.
pub fn read(kind: u32, s: &[u8], out: &mut [u64]) -> Result<usize, Refusal>
    ensures { Wrote out.old out.new (answer_of result) (read_numbers kind s.now (length out.old)) }
{
    let r = records::read(kind, s)?;
    if out.len() < NUMBER_COUNT {
        return Err(Refusal::at(Fault::OutputTooLong, 0));
    }
    let numbers = reading::numbers_of(r);
    out[..NUMBER_COUNT].copy_from_slice(&numbers);
    Ok(NUMBER_COUNT)
}

// A record from its numbers, its sequence sets, its picture sets and its trailer's sets, by a kind's number: 4, 31, 29; or its
// bytes over the start of the buffer, and how many. After a refusal the buffer is as it was.
#[tactic(auto, unfolding(crate::specs::Numbers::write_numbers))]
pub fn write(
    kind: u32,
    numbers: &[u64],
    sequences: &[u8],
    pictures: &[u8],
    extensions: &[u8],
    out: &mut [u8],
) -> Result<usize, Refusal>
    ensures { Wrote out.old out.new (answer_of result) (write_numbers kind numbers.now sequences.now pictures.now extensions.now (length out.old)) }
{
    match Kind::from_number(kind) {
        None => Err(Refusal::at(Fault::UnknownKind, 0)),
        Some(k) => writing::write_as(k, numbers, sequences, pictures, extensions, out),
    }
}
