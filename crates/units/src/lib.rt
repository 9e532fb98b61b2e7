// The units of a sample: what stands at a place, and what is wrong with it.
#![tactic(auto)]

ghost use Rattle.std.specs.Prelude.{◌≡◌, [], ◌&&◌, not};
ghost use Rattle.words.specs.Tests.{◌≡?◌};
ghost use Rattle.words.specs.Refusals.{◌if◌};
ghost use Rattle.words.specs.RefusalNumbers.{bad_extractor_size};
ghost use Rattle.numbers.specs.Faults.{fault_in};
ghost use Rattle.numbers.specs.Sizes.{extractor_size};
ghost use Rattle.units.specs.Units.{sample, size, type, least_size, extractor_type, unit_fault};
ghost use Rattle.units.specs.Extractors.{extractor_fault};
ghost use Rattle.units.specs.Aggregators.{included_fault};

use numbers::{ByteOffset, Fault, Kind, LengthSize};

// The types of units that the check is about.
pub const PREFIX: u8 = 14;

pub const SCALABLE_SLICE: u8 = 20;

pub const AGGREGATOR: u8 = 30;

pub const EXTRACTOR: u8 = 31;

// What a track says of its samples.
#[derive(Clone, Copy)]
pub struct Track {
    pub kind: Kind,
    pub length_size: LengthSize,
}

// A unit: its first byte, after the length field; its size; its type; where the next unit's length field starts.
#[derive(Clone, Copy)]
pub struct NalUnit {
    pub start: ByteOffset,
    pub size: usize,
    pub nal_type: u8,
    pub next: ByteOffset,
}

// The fields of an extractor. The sample_offset is the byte as it stands: 128 and more are negative.
#[derive(Clone, Copy)]
pub struct Extractor {
    pub track_ref_index: u8,
    pub sample_offset: u8,
    pub data_offset: ByteOffset,
    pub data_length: usize,
}

// What a walk needs of a unit: its first refusal, if it has one, and its size, after a refusal too. Its length is read once for both.
#[derive(Clone, Copy)]
pub struct JudgedUnit {
    pub verdict: Result<(), Fault>,
    pub size: usize,
}

// The type of the unit at a place; 0 where there is no byte.
pub fn type_at(k: Track, s: &[u8], at: ByteOffset) -> u8
    ensures { result ≡ type (sample k s.now) at.0 }
{
    let n = k.length_size.bytes();
    if s.len() <= at.0 || s.len() - at.0 <= n {
        return 0;
    }
    s[at.0 + n] % numbers::NAL_TYPES
}

// The least size of a unit of a type.
fn least_size(k: Track, t: u8) -> usize
    ensures { result ≡ least_size (sample k []) t }
{
    match t {
        AGGREGATOR => k.length_size.least_aggregator(),
        PREFIX | SCALABLE_SLICE | EXTRACTOR => LengthSize::HEADER,
        _ => 1,
    }
}

// The first of 14 to 18 for the unit at a place, which has this many bytes, in what ends at an offset.
#[tactic(auto, using(words::proofs::Tests::tests), unfolding(crate::specs::Units::unit_fault))]
fn unit_fault(
    k: Track,
    s: &[u8],
    at: ByteOffset,
    end: ByteOffset,
    bytes: usize,
) -> Result<(), Fault>
    requires { bytes ≡ size (sample k s.now) at.0 }
    ensures { fault_in result ≡ unit_fault (sample k s.now) end.0 at.0 }
{
    let n = k.length_size.bytes();
    if end.0 <= at.0 || end.0 - at.0 < n {
        return Err(Fault::LengthFieldCut);
    }
    let room = end.0 - at.0;
    if room - n < bytes {
        return Err(Fault::UnitTooLong);
    }
    if bytes == 0 {
        return Err(Fault::EmptyUnit);
    }
    let head = numbers::byte(s, at.0 + n);
    if numbers::FORBIDDEN_BIT <= head {
        return Err(Fault::TopBitSet);
    }
    if bytes < least_size(k, head % numbers::NAL_TYPES) {
        return Err(Fault::UnitTooShort);
    }
    Ok(())
}

// The same, and its size.
#[tactic(auto, unfolding(crate::specs::Units::size))]
pub fn judge_unit(k: Track, s: &[u8], at: ByteOffset, end: ByteOffset) -> JudgedUnit
    ensures { (fault_in result.verdict ≡ unit_fault (sample k s.now) end.0 at.0) × (result.size ≡ size (sample k s.now) at.0) }
{
    let bytes = k.length_size.number(s, at.0);
    JudgedUnit {
        verdict: unit_fault(k, s, at, end, bytes),
        size: bytes,
    }
}

// 22 by the size and the type of a unit: an extractor of another size.
fn size_fault(l: LengthSize, bytes: usize, t: u8) -> Result<(), Fault>
    ensures { fault_in result ≡ bad_extractor_size if (t ≡? extractor_type) && not (bytes ≡? extractor_size l) }
{
    if t == EXTRACTOR && bytes != l.extractor_size() {
        return Err(Fault::BadExtractorSize);
    }
    Ok(())
}

// 22 for the unit at a place.
#[tactic(auto, unfolding(crate::specs::Units::size))]
pub fn extractor_fault(k: Track, s: &[u8], at: ByteOffset) -> Result<(), Fault>
    ensures { fault_in result ≡ extractor_fault (sample k s.now) at.0 }
{
    let l = k.length_size;
    let bytes = l.number(s, at.0);
    let t = type_at(k, s, at);
    size_fault(l, bytes, t)
}

// The first of 14 to 20 and 22 for the unit at a place, which has this many bytes, in an aggregator that ends at an offset.
#[tactic(auto, using(words::proofs::Tests::tests), unfolding(crate::specs::Aggregators::included_fault))]
fn included_fault(
    k: Track,
    s: &[u8],
    at: ByteOffset,
    end: ByteOffset,
    bytes: usize,
) -> Result<(), Fault>
    requires { bytes ≡ size (sample k s.now) at.0 }
    ensures { fault_in result ≡ included_fault (sample k s.now) end.0 at.0 }
{
    unit_fault(k, s, at, end, bytes)?;
    let t = type_at(k, s, at);
    if t == AGGREGATOR {
        return Err(Fault::NestedAggregator);
    }
    if matches!((k.kind, t), (Kind::Avc, 1..=5)) {
        return Err(Fault::SliceInAvcAggregator);
    }
    size_fault(k.length_size, bytes, t)
}

// The same, and its size.
#[tactic(auto, unfolding(crate::specs::Units::size))]
pub fn judge_included(k: Track, s: &[u8], at: ByteOffset, end: ByteOffset) -> JudgedUnit
    ensures { (fault_in result.verdict ≡ included_fault (sample k s.now) end.0 at.0) × (result.size ≡ size (sample k s.now) at.0) }
{
    let bytes = k.length_size.number(s, at.0);
    JudgedUnit {
        verdict: included_fault(k, s, at, end, bytes),
        size: bytes,
    }
}
