// The steps of reading a record, front to back.
ghost use Rattle.std.specs.Prelude.{◌≡◌, ◌+◌, ◌≤◌, ◌<◌, length, IfOk};
ghost use Rattle.numbers.specs.Faults.{fault_in};
ghost use Rattle.words.specs.Refusals.{◌or_else◌};
ghost use Rattle.words.specs.Bytes.{byte_at};
ghost use Rattle.sets.specs.Sets.{sets_fault, sets_end};
ghost use Rattle.record_rules.specs.Layout.{SoundShape, record_layout, value_in, picture_types, missing, byte_fault};
ghost use Rattle.record_rules.specs.Trailers.{values_fault, high_of};
ghost use Rattle.record_rules.specs.Read.{head_fault, sequences_fault, sequences_end, pictures_end, follow_fault, fields_of, trailer_of};
ghost use Rattle.records.specs.Steps.{follow_of};

use crate::Follow;
use numbers::{Fault, Kind};
use record_rules::{Fields, Flag, High, Shape, Trailer, layouts};

// The value of a byte.
pub(crate) fn value_in(h: Shape, b: u8) -> usize
    requires { SoundShape h }
    ensures { result ≡ value_in h b }
{
    b as usize % h.unit % h.low
}

// The value of a byte that must be there, with its fixed bits.
#[tactic(auto, using(words::proofs::Tests::tests), unfolding(record_rules::specs::Layout::byte_fault))]
fn value_at(s: &[u8], h: Shape, at: usize) -> Result<usize, Fault>
    requires { SoundShape h }
    ensures fault { fault_in result ≡ byte_fault s.now h at }
    ensures value { IfOk result (λ v. v ≡ value_in h (byte_at s.now at)) }
{
    if s.len() <= at {
        return Err(Fault::RecordCut);
    }
    if s[at] as usize % h.unit / h.low != h.fixed {
        return Err(Fault::WrongFixedBits);
    }
    Ok(value_in(h, s[at]))
}

// The six bytes before the sequence sets.
#[tactic(auto, using(words::proofs::Tests::tests, numbers::proofs::Faults::faults), unfolding(record_rules::specs::Read::head_fault))]
pub(crate) fn head_fault(k: Kind, s: &[u8]) -> Result<(), Fault>
    ensures { fault_in result ≡ head_fault k s.now }
{
    let l = layouts::record_layout(k);
    if s.len() <= layouts::VERSION_AT {
        return Err(Fault::RecordCut);
    }
    if s[layouts::VERSION_AT] != layouts::VERSION {
        return Err(Fault::BadVersion);
    }
    let less_one = value_at(s, l.length_size, layouts::LENGTH_SIZE_AT)?;
    if less_one + 1 == layouts::BAD_SIZE {
        return Err(Fault::BadLengthSize);
    }
    value_at(s, l.count, layouts::COUNT_AT)?;
    Ok(())
}

// The sequence sets, after the six bytes: where they end.
#[tactic(auto, unfolding(record_rules::specs::Read::sequences_end))]
pub(crate) fn walk_sequences(k: Kind, s: &[u8]) -> Result<usize, Fault>
    requires { 5 < length s.now }
    ensures fault { fault_in result ≡ sequences_fault k s.now }
    ensures end { IfOk result (λ end. end ≡ sequences_end k s.now) }
{
    let l = layouts::record_layout(k);
    let n = value_in(l.count, s[layouts::COUNT_AT]);
    sets::walk_sets(l.sequence, s, n, layouts::HEAD)
}

// The number of picture sets at a place, and the sets: where they end.
pub(crate) fn walk_pictures(s: &[u8], at: usize) -> Result<usize, Fault>
    ensures fault { fault_in result ≡ (missing s.now at or_else sets_fault picture_types s.now (byte_at s.now at) (at + 1)) }
    ensures end { IfOk result (λ end. end ≡ sets_end s.now (byte_at s.now at) (at + 1)) }
{
    if s.len() <= at {
        return Err(Fault::RecordCut);
    }
    sets::walk_sets(layouts::PICTURE_TYPES, s, s[at] as usize, at + 1)
}

// The values of a trailer at a place.
#[tactic(auto, using(words::proofs::Tests::tests, numbers::proofs::Faults::faults), unfolding(record_rules::specs::Trailers::values_fault))]
fn high_of(s: &[u8], at: usize) -> Result<High, Fault>
    requires { at ≤ length s.now }
    ensures fault { fault_in result ≡ values_fault s.now at }
    ensures value { IfOk result (λ high. high ≡ high_of s.now at) }
{
    let format = value_at(s, layouts::CHROMA, at)?;
    let luma = value_at(s, layouts::DEPTH, at + 1)?;
    let chroma = value_at(s, layouts::DEPTH, at + 2)?;
    if s.len() <= at + 3 {
        return Err(Fault::RecordCut);
    }
    Ok(High {
        format,
        luma,
        chroma,
        extensions: s[at + 3] as usize,
    })
}

// A record that ends with its picture sets, at a place.
fn nothing(trailer: Trailer, at: usize) -> Follow
    ensures { result ≡ record { trailer = trailer; start = at; end = at } }
{
    Follow {
        trailer,
        start: at,
        end: at,
    }
}

// What follows the picture sets, which end at a place.
pub(crate) fn follow_of(k: Kind, s: &[u8], at: usize) -> Result<Follow, Fault>
    requires { (1 < length s.now) × (at ≤ length s.now) × (at ≡ pictures_end k s.now) }
    ensures fault { fault_in result ≡ follow_fault k s.now }
    ensures value { IfOk result (λ follow. follow ≡ follow_of k s.now) }
{
    if !layouts::trailer_belongs(k, s[layouts::PROFILE_AT] as usize) {
        return Ok(nothing(Trailer::None, at));
    }
    // absent only if no byte is left
    let left = s.len() - at;
    if left == 0 {
        return Ok(nothing(Trailer::Absent, at));
    }
    let high = high_of(s, at)?;
    let start = at + layouts::TRAILER_HEAD;
    let end = sets::walk_sets(layouts::EXTENSION_TYPES, s, high.extensions, start)?;
    Ok(Follow {
        trailer: Trailer::Present(high),
        start,
        end,
    })
}

// The fields, with the number of picture sets at a place, and a trailer.
pub(crate) fn fields_of(k: Kind, s: &[u8], at: usize, trailer: Trailer) -> Fields
    requires { (5 < length s.now) × (at < length s.now) × (at ≡ sequences_end k s.now) × (trailer ≡ trailer_of k s.now) }
    ensures { result ≡ fields_of k s.now }
{
    let l = layouts::record_layout(k);
    let bit = s[layouts::LENGTH_SIZE_AT] / layouts::COMPLETE % 2;
    let complete = Flag::of(0 < l.flags, u64::from(bit));
    let less_one = value_in(l.length_size, s[layouts::LENGTH_SIZE_AT]);
    let sequences = value_in(l.count, s[layouts::COUNT_AT]);
    Fields {
        profile: s[layouts::PROFILE_AT] as usize,
        compatibility: s[layouts::COMPATIBILITY_AT] as usize,
        level: s[layouts::LEVEL_AT] as usize,
        complete,
        length_size: less_one + 1,
        sequences,
        pictures: s[at] as usize,
        trailer,
    }
}
