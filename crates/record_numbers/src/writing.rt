// A record written from its numbers.
ghost use Rattle.std.specs.Prelude.{◌≡◌, ◌≤◌, length};
ghost use Rattle.numbers.specs.Faults.{fault_in};
ghost use Rattle.words.specs.Buffers.{within, Wrote};
ghost use Rattle.numbers.specs.Answers.{answer_of};
ghost use Rattle.record_numbers.specs.Indices.{number_count};
ghost use Rattle.record_numbers.specs.Numbers.{flag_most, high_from, trailer_from, numbers_fault, fields_from, write_numbers_as};

use crate::{NUMBER_COUNT, TRAILER_ABSENT, TRAILER_PRESENT};
use numbers::{Fault, Kind, Refusal};
use record_rules::{Fields, Flag, High, Trailer, layouts};

// Where the numbers stand that are looked at.
const PROFILE_AT: usize = 0;

const COMPATIBILITY_AT: usize = 1;

const LEVEL_AT: usize = 2;

const COMPLETE_AT: usize = 3;

const LENGTH_SIZE_AT: usize = 4;

const SEQUENCE_COUNT_AT: usize = 5;

const PICTURE_COUNT_AT: usize = 8;

const TRAILER_AT: usize = 11;

const CHROMA_FORMAT_AT: usize = 12;

const LUMA_DEPTH_AT: usize = 13;

const CHROMA_DEPTH_AT: usize = 14;

const EXTENSION_COUNT_AT: usize = 15;

// The most that complete_representation may be.
fn flag_most(k: Kind) -> u64
    ensures { result ≡ flag_most k }
{
    if 0 < layouts::record_layout(k).flags {
        1
    } else {
        0
    }
}

// 31: too few numbers, or one that is no complete_representation or no trailer.
#[tactic(auto, using(words::proofs::Tests::tests), unfolding(crate::specs::Numbers::numbers_fault))]
fn numbers_fault(k: Kind, numbers: &[u64]) -> Result<(), Fault>
    ensures { fault_in result ≡ numbers_fault k numbers.now }
{
    if numbers.len() < NUMBER_COUNT
        || flag_most(k) < numbers[COMPLETE_AT]
        || TRAILER_PRESENT < numbers[TRAILER_AT]
    {
        return Err(Fault::FieldsFitNoRecord);
    }
    Ok(())
}

// The values of a trailer.
fn high_from(numbers: &[u64]) -> High
    requires { number_count ≤ length numbers.now }
    ensures { result ≡ high_from numbers.now }
{
    High {
        format: numbers[CHROMA_FORMAT_AT] as usize,
        luma: numbers[LUMA_DEPTH_AT] as usize,
        chroma: numbers[CHROMA_DEPTH_AT] as usize,
        extensions: numbers[EXTENSION_COUNT_AT] as usize,
    }
}

// The trailer.
fn trailer_from(numbers: &[u64]) -> Trailer
    requires { number_count ≤ length numbers.now }
    ensures { result ≡ trailer_from numbers.now }
{
    match numbers[TRAILER_AT] {
        TRAILER_PRESENT => Trailer::Present(high_from(numbers)),
        TRAILER_ABSENT => Trailer::Absent,
        _ => Trailer::None,
    }
}

// The fields.
#[tactic(auto, unfolding(crate::specs::Numbers::fields_from))]
fn fields_from(k: Kind, numbers: &[u64]) -> Fields
    requires { number_count ≤ length numbers.now }
    ensures { result ≡ fields_from k numbers.now }
{
    let l = layouts::record_layout(k);
    Fields {
        profile: numbers[PROFILE_AT] as usize,
        compatibility: numbers[COMPATIBILITY_AT] as usize,
        level: numbers[LEVEL_AT] as usize,
        complete: Flag::of(0 < l.flags, numbers[COMPLETE_AT]),
        length_size: numbers[LENGTH_SIZE_AT] as usize,
        sequences: numbers[SEQUENCE_COUNT_AT] as usize,
        pictures: numbers[PICTURE_COUNT_AT] as usize,
        trailer: trailer_from(numbers),
    }
}

// A record of a known kind.
pub(crate) fn write_as(
    k: Kind,
    numbers: &[u64],
    sequences: &[u8],
    pictures: &[u8],
    extensions: &[u8],
    out: &mut [u8],
) -> Result<usize, Refusal>
    ensures { Wrote out.old out.new (answer_of result) (within (length out.old) (write_numbers_as k numbers.now sequences.now pictures.now extensions.now)) }
{
    numbers::at_place(numbers_fault(k, numbers), 0)?;
    let f = fields_from(k, numbers);
    record_writer::write_as(k, f, sequences, pictures, extensions, out)
}
