// Numbers that must not be mixed up, a track's kind and length size, and numbers in bytes.
#![tactic(auto)]

pub mod refusals;

ghost use Rattle.std.specs.Prelude.{◌≡◌, ◌+◌, ◌≤◌, ◌<◌, length};
ghost use Rattle.words.specs.Bytes.{byte_at, big, word_at, bytes};
ghost use Rattle.words.specs.Buffers.{put};
ghost use Rattle.numbers.specs.Sizes.{in_bytes, extractor_size, least_aggregator, length_size_of};
ghost use Rattle.numbers.specs.Kinds.{kind_of};
ghost use Rattle.numbers.specs.Faults.{refusal_at, refused_at};

pub use refusals::Fault;

// The number of a track, from 1.
#[derive(Clone, Copy)]
pub struct TrackNumber(pub usize);

// The number of a sample, from 1.
#[derive(Clone, Copy, Debug, PartialEq, Eq)]
pub struct SampleNumber(pub usize);

// An offset in bytes, from 0: a place.
#[derive(Clone, Copy, Debug, PartialEq, Eq)]
pub struct ByteOffset(pub usize);

// The bytes of a place as it is written.
pub const PLACE_SIZE: usize = 4;

// The first byte of a NAL unit: its top bit, forbidden_zero_bit, counts 128; its type is what is left of 32, the low five bits.
pub const FORBIDDEN_BIT: u8 = 128;

pub const NAL_TYPES: u8 = 32;

// A refusal: its number in document 01's table, and its place.
#[derive(Clone, Copy, Debug, PartialEq, Eq)]
pub struct Refusal {
    pub number: u8,
    pub place: ByteOffset,
}

impl Refusal {
    // A fault, at a place.
    pub fn at(fault: Fault, place: usize) -> Refusal
        ensures { result ≡ refusal_at fault place }
    {
        Refusal {
            number: fault.number(),
            place: ByteOffset(place),
        }
    }
}

// What a step answers, its fault at a place.
pub fn at_place<T>(step: Result<T, Fault>, place: usize) -> Result<T, Refusal>
    ensures { result ≡ refused_at place step }
{
    match step {
        Ok(value) => Ok(value),
        Err(fault) => Err(Refusal::at(fault, place)),
    }
}

// The kind of a track.
#[derive(Clone, Copy, Debug, PartialEq, Eq)]
pub enum Kind {
    Avc,
    Svc,
}

impl Kind {
    // The kind of a number: 0 AVC, 1 SVC.
    pub fn from_number(n: u32) -> Option<Kind>
        ensures { result ≡ kind_of n }
    {
        match n {
            0 => Some(Kind::Avc),
            1 => Some(Kind::Svc),
            _ => None,
        }
    }
}

// L, the length size of a track in bytes.
#[derive(Clone, Copy)]
pub enum LengthSize {
    One,
    Two,
    Four,
}

impl LengthSize {
    // The size of the header of units of types 14, 20, 30 (aggregator) and 31 (extractor).
    pub const HEADER: usize = 4;

    // The length size of a number: 1, 2 or 4.
    pub fn from_number(n: u32) -> Option<LengthSize>
        ensures { result ≡ length_size_of n }
    {
        match n {
            1 => Some(LengthSize::One),
            2 => Some(LengthSize::Two),
            4 => Some(LengthSize::Four),
            _ => None,
        }
    }

    pub fn bytes(self) -> usize
        ensures { (result ≡ in_bytes self) × (result ≤ 4) }
    {
        match self {
            LengthSize::One => 1,
            LengthSize::Two => 2,
            LengthSize::Four => 4,
        }
    }

    // The size of an extractor.
    pub fn extractor_size(self) -> usize
        ensures { result ≡ extractor_size self }
    {
        6 + 2 * self.bytes()
    }

    // The least size of an aggregator.
    pub fn least_aggregator(self) -> usize
        ensures { result ≡ least_aggregator self }
    {
        LengthSize::HEADER + self.bytes()
    }

    // The number of L bytes at a place.
    pub fn number(self, s: &[u8], at: usize) -> usize
        ensures { result ≡ big s.now at (in_bytes self) }
    {
        // stays: one call at `self.bytes()` proves, and takes six times as long or more; with the width written out no loop is left
        match self {
            LengthSize::One => number(s, at, 1),
            LengthSize::Two => number(s, at, 2),
            LengthSize::Four => number_of_4(s, at),
        }
    }
}

// The byte at a place, 0 past the end.
pub fn byte(s: &[u8], at: usize) -> u8
    ensures { result ≡ byte_at s.now at }
{
    s.get(at).copied().unwrap_or(0)
}

// The byte i bytes after a place, as a number; 0 past the end.
fn byte_after(s: &[u8], at: usize, i: usize) -> usize
    ensures { (result ≡ byte_at s.now (at + i)) × (result < 256) }
{
    if at < s.len() && i < s.len() - at {
        s[at + i] as usize
    } else {
        0
    }
}

// The big-endian number of n bytes at a place; 0 for more than 8 bytes.
pub fn number(s: &[u8], at: usize, n: usize) -> usize
    ensures { result ≡ word_at s.now at n }
{
    if 8 < n {
        return 0;
    }
    let mut v = 0;
    for i in 0..n {
        v = v * 256 + byte_after(s, at, i);
    }
    v
}

// The same of 4 bytes, without a loop where they are there.
fn number_of_4(s: &[u8], at: usize) -> usize
    ensures { result ≡ big s.now at 4 }
{
    if at < s.len() && 3 < s.len() - at {
        u32::from_be_bytes([s[at], s[at + 1], s[at + 2], s[at + 3]]) as usize
    } else {
        number(s, at, 4)
    }
}

// A slice over a buffer from a place on, if it fits there.
pub fn put_bytes(out: &mut [u8], at: usize, s: &[u8])
    ensures { out.new ≡ put out.old at s.now }
{
    if at <= out.len() && s.len() <= out.len() - at {
        // stays: `copy_from_slice` proves, and with it the library for C needs memmove too
        for i in 0..s.len() {
            out[at + i] = s[i];
        }
    }
}

// A number over a buffer from a place on, big-endian in n bytes, if they fit there.
pub fn put_number(out: &mut [u8], at: usize, n: usize, v: usize)
    ensures { out.new ≡ put out.old at (bytes n v) }
{
    if at <= out.len() && n <= out.len() - at {
        let mut rest = v;
        for i in (0..n).rev() {
            out[at + i] = (rest % 256) as u8;
            rest /= 256;
        }
    }
}
