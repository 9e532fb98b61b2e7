// Marks of a sample: the state of the walk over its units at the end of each block of its bytes, kept in rows of numbers; and what an
// extractor copies, counted from them without going over the sample. Every public function takes any bytes, any rows and any numbers.
#![tactic(auto)]

ghost use Rattle.std.specs.Prelude.{◌≡◌, ◌*◌, ◌-◌, ◌≤◌, ◌<◌, length, get_or};
ghost use Rattle.words.specs.Bytes.{big};
ghost use Rattle.words.specs.Buffers.{put};
ghost use Rattle.numbers.specs.Sizes.{in_bytes};
ghost use Rattle.units.specs.Units.{sample};
ghost use Rattle.mark_rules.specs.States.{state_step, reach};
ghost use Rattle.mark_rules.specs.Amounts.{stands_at_end, between};
ghost use Rattle.numbers.specs.Faults.{numbered};
ghost use Rattle.marks.specs.Marks.{row_size, number_limit, kept_number, row_of, state_in, marks, state_by, copy_by};
ghost use Rattle.marks.specs.Fits.{Fits};

use mark_rules::{CopyAmount, WalkState};
use numbers::{ByteOffset, Fault, LengthSize};
use units::Track;

// The bytes of a block.
pub const BLOCK: usize = 1280;

// The numbers of a row.
pub const ROW: usize = 5;

// Numbers of a row are kept below it.
const NUMBER_LIMIT: usize = 4294967296;

// The number in a length field at a place.
fn length_at(l: LengthSize, z: &[u8], p: usize) -> usize
    ensures { (result ≡ big z.now p (in_bytes l)) × (result < number_limit) }
{
    l.number(z, p)
}

// The state one unit on.
fn step(k: Track, z: &[u8], s: WalkState) -> WalkState
    requires { (s.place < length z.now) × Fits s }
    ensures { result ≡ state_step (sample k z.now) s }
{
    let l = k.length_size;
    let n = l.bytes();
    let p = s.place;
    let size = length_at(l, z, p);
    match units::type_at(k, z, ByteOffset(p)) {
        units::AGGREGATOR => WalkState {
            place: p + n + LengthSize::HEADER + n,
            until: p + n + size,
            ..s
        },
        t => WalkState {
            place: p + n + size,
            count: s.count + 1,
            bytes: s.bytes + size,
            extractors: s.extractors + usize::from(t == units::EXTRACTOR),
            ..s
        },
    }
}

// The state when the walk from a state first stands at a place or past it.
fn reach(k: Track, z: &[u8], from: WalkState, to: usize) -> WalkState
    requires { Fits from × (to ≤ length z.now) }
    ensures { (result ≡ reach (sample k z.now) to from) × Fits result }
{
    let mut s = from;
    while s.place < to {
        s = step(k, z, s);
    }
    s
}

// A number as it is kept in a row.
fn kept(n: usize) -> u32
    ensures { result ≡ kept_number n }
{
    (n % NUMBER_LIMIT) as u32
}

// A state over a row, where there is one.
fn put_row(rows: &mut [u32], i: usize, s: WalkState)
    ensures { rows.new ≡ put rows.old (i * row_size) (row_of s) }
{
    if i < rows.len() / ROW {
        let at = i * ROW;
        rows[at..at + ROW].copy_from_slice(&[
            kept(s.place),
            kept(s.until),
            kept(s.count),
            kept(s.bytes),
            kept(s.extractors),
        ]);
    }
}

// A number of the rows, 0 past their end.
fn cell(rows: &[u32], at: usize) -> usize
    ensures { (result ≡ get_or rows.now at 0) × (result < number_limit) }
{
    rows.get(at).copied().unwrap_or(0) as usize
}

// The state in a row; past their end the state before the first unit.
fn row(rows: &[u32], i: usize) -> WalkState
    ensures { (result ≡ state_in rows.now i) × Fits result }
{
    if rows.len() <= i {
        return WalkState::default();
    }
    let at = i * ROW;
    WalkState {
        place: cell(rows, at),
        until: cell(rows, at + 1),
        count: cell(rows, at + 2),
        bytes: cell(rows, at + 3),
        extractors: cell(rows, at + 4),
    }
}

// The states of a sample at the ends of its blocks, over the rows from base on that are there.
pub fn mark(k: Track, z: &[u8], rows: &mut [u32], base: usize)
    ensures { rows.new ≡ marks (sample k z.now) base rows.old }
{
    if rows.len() <= base {
        return;
    }
    let mut s = WalkState::default();
    for i in 0..z.len() / BLOCK {
        s = reach(k, z, s, (i + 1) * BLOCK);
        put_row(rows, base + i, s);
    }
}

// The state at a place of a sample, gone to from the last mark at or before it: by the marks of the sample less than a block is gone over.
fn state_at(k: Track, z: &[u8], rows: &[u32], base: usize, to: usize) -> WalkState
    requires { to ≤ length z.now }
    ensures { (result ≡ state_by (sample k z.now) rows.now base to) × Fits result }
{
    let blocks = to / BLOCK;
    let from = if blocks == 0 {
        WalkState::default()
    } else {
        row(rows, base.saturating_add(blocks - 1))
    };
    reach(k, z, from, to)
}

// A copy from a state up to a later one: 28, or its units counted.
#[tactic(auto, using(words::proofs::Tests::tests), unfolding(mark_rules::specs::Amounts::between))]
fn between(a: WalkState, e: WalkState) -> Result<CopyAmount, Fault>
    ensures { numbered result ≡ between a e }
{
    if e.extractors != a.extractors {
        return Err(Fault::ExtractorCopied);
    }
    Ok(CopyAmount {
        count: e.count.saturating_sub(a.count),
        bytes: e.bytes.saturating_sub(a.bytes),
    })
}

// Whether a copy from one place to another may end there, by the states at both.
fn ends(from: usize, to: usize, a: WalkState, e: WalkState) -> bool
    ensures { result ≡ stands_at_end from to a e }
{
    let allowed = if from < a.until {
        to <= a.until
    } else {
        e.until <= to
    };
    e.place == to && allowed
}

// What data_length 0 copies, from the state at a unit: that unit; for an aggregator also what it covers.
fn copy_unit(
    k: Track,
    z: &[u8],
    rows: &[u32],
    base: usize,
    a: WalkState,
) -> Result<CopyAmount, Fault>
    requires { (a.place < length z.now) × Fits a × (a ≡ state_by (sample k z.now) rows.now base a.place) }
    ensures { numbered result ≡ copy_by (sample k z.now) rows.now base a.place 0 }
{
    let l = k.length_size;
    let n = l.bytes();
    let p = a.place;
    let next = p + n + length_at(l, z, p);
    if units::type_at(k, z, ByteOffset(p)) != units::AGGREGATOR {
        if z.len() < next {
            return Err(Fault::BadDataLength);
        }
        return between(a, reach(k, z, a, next));
    }
    let to = next + length_at(l, z, p + n + LengthSize::HEADER);
    if z.len() < to {
        return Err(Fault::BadDataLength);
    }
    between(a, state_at(k, z, rows, base, to))
}

// A copy of a sample by data_offset and data_length: 26 to 28, or its units counted. By the marks of the sample less than two blocks are gone
// over.
pub fn copy_of(
    k: Track,
    z: &[u8],
    rows: &[u32],
    base: usize,
    offset: ByteOffset,
    length: usize,
) -> Result<CopyAmount, Fault>
    ensures { numbered result ≡ copy_by (sample k z.now) rows.now base offset.0 length }
{
    let from = offset.0;
    if z.len() <= from {
        return Err(Fault::BadDataOffset);
    }
    let a = state_at(k, z, rows, base, from);
    if a.place != from {
        return Err(Fault::BadDataOffset);
    }
    if length == 0 {
        return copy_unit(k, z, rows, base, a);
    }
    if z.len() - from < length {
        return Err(Fault::BadDataLength);
    }
    let to = from + length;
    let e = state_at(k, z, rows, base, to);
    if !ends(from, to, a, e) {
        return Err(Fault::BadDataLength);
    }
    between(a, e)
}
