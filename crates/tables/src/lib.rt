// A table of numbers beside a bundle: its numbers, and the tracks and references that it says. Every function takes any table; the crate filling fills one.
#![tactic(auto)]

ghost use Rattle.std.specs.Prelude.{◌≡◌, ◌-◌, ◌≤◌, length};
ghost use Rattle.words.specs.Tests.{◌≡?◌, pick};
ghost use Rattle.words.specs.Lists.{nth};
ghost use Rattle.numbers.specs.Kinds.{kind_of};
ghost use Rattle.numbers.specs.Sizes.{length_size_of};
ghost use Rattle.bundles.specs.Limits.{track_most, reference_most};
ghost use Rattle.bundles.specs.Recordings.{no_track, no_reference, references_from};
ghost use Rattle.bundles.specs.Tracks.{known_kind, known_size};
ghost use Rattle.tables.specs.Tables.{counts_row, at_most, cell, track_total, reference_total, layout_in};

use numbers::{Kind, LengthSize, TrackNumber};

// Rows of four numbers: row 0 has the counts, row k track k, row REFERENCE_ROW + i reference i, row SAMPLE_ROW + n sample n.
pub const COLUMNS: usize = 4;

pub const COUNTS_ROW: usize = 0;

pub const REFERENCE_ROW: usize = bundles::TRACK_MOST;

pub const SAMPLE_ROW: usize = REFERENCE_ROW + bundles::REFERENCE_MOST;

// As many numbers are enough for the table of any bundle.
pub const TABLE_SIZE: usize = (SAMPLE_ROW + bundles::SAMPLE_MOST + 1) * COLUMNS;

// The columns of the counts.
const TRACKS: usize = 0;

const REFERENCES: usize = 1;

pub const SAMPLES: usize = 2;

// The columns of a track: its kind, its length size, how many samples the tracks before it have.
const KIND: usize = 0;

const SIZE: usize = 1;

pub const BEFORE: usize = 2;

// The columns of a reference.
pub const FROM: usize = 0;

pub const TO: usize = 1;

// The samples of a track: those numbered after `before`, up to `after`; none where `after` is not the greater.
#[derive(Clone, Copy)]
pub struct SampleRange {
    pub before: usize,
    pub after: usize,
}

impl SampleRange {
    // How many samples it has.
    pub fn size(self) -> usize
        ensures { result ≡ self.after - self.before }
    {
        self.after.saturating_sub(self.before)
    }
}

// A number of the table, 0 past its end.
pub fn cell(t: &[u64], row: usize, column: usize) -> usize
    ensures { result ≡ cell t.now row column }
{
    if t.len() <= row || t.len() <= column {
        return 0;
    }
    let at = row * COLUMNS + column;
    t.get(at).copied().unwrap_or(0) as usize
}

// A count of the table, or the most where it is beyond it.
pub fn count(t: &[u64], column: usize, most: usize) -> usize
    ensures { (result ≡ at_most most (cell t.now counts_row column)) × (result ≤ most) }
{
    cell(t, COUNTS_ROW, column).min(most)
}

// The number of tracks, at most as many as there may be.
pub fn track_total(t: &[u64]) -> usize
    ensures { (result ≡ track_total t.now) × (result ≤ track_most) }
{
    count(t, TRACKS, bundles::TRACK_MOST)
}

// The number of references, at most as many as there may be.
pub fn reference_total(t: &[u64]) -> usize
    ensures { (result ≡ reference_total t.now) × (result ≤ reference_most) }
{
    count(t, REFERENCES, bundles::REFERENCE_MOST)
}

// The kind of a number, AVC where it says none.
fn kind_of(n: usize) -> Kind
    ensures { result ≡ known_kind (kind_of n) }
{
    u32::try_from(n)
        .ok()
        .and_then(Kind::from_number)
        .unwrap_or(Kind::Avc)
}

// The length size of a number, 1 where it says none.
fn size_of(n: usize) -> LengthSize
    ensures { result ≡ known_size (length_size_of n) }
{
    u32::try_from(n)
        .ok()
        .and_then(LengthSize::from_number)
        .unwrap_or(LengthSize::One)
}

// The kind of a track; AVC where there is no such track.
pub fn track_kind(t: &[u64], k: TrackNumber) -> Kind
    ensures { result ≡ (nth (layout_in t.now).tracks k.0 no_track).kind }
{
    if k.0 == 0 || track_total(t) < k.0 {
        return Kind::Avc;
    }
    kind_of(cell(t, k.0, KIND))
}

// The length size of a track; 1 where there is no such track.
pub fn track_length_size(t: &[u64], k: TrackNumber) -> LengthSize
    ensures { result ≡ (nth (layout_in t.now).tracks k.0 no_track).length_size }
{
    if k.0 == 0 || track_total(t) < k.0 {
        return LengthSize::One;
    }
    size_of(cell(t, k.0, SIZE))
}

// How many references a track has.
pub fn reference_count(t: &[u64], k: TrackNumber) -> usize
    ensures { result ≡ length (references_from (layout_in t.now) k.0) }
{
    let total = reference_total(t);
    let mut count: usize = 0;
    for i in 0..total {
        if cell(t, REFERENCE_ROW + (i + 1), FROM) == k.0 {
            count += 1;
        }
    }
    count
}

// The track that a track's reference of a number, its track_ref_index, leads to; 0 where there is no such reference.
pub fn reference(t: &[u64], k: TrackNumber, index: usize) -> TrackNumber
    ensures { result.0 ≡ (nth (references_from (layout_in t.now) k.0) index no_reference).to }
{
    if index == 0 {
        return TrackNumber(0);
    }
    let total = reference_total(t);
    let mut count: usize = 0;
    for i in 0..total {
        let row = REFERENCE_ROW + (i + 1);
        if cell(t, row, FROM) == k.0 {
            count += 1;
        }
        // stays: tested in every round; within the test above it was tried, and is slower
        if count == index {
            return TrackNumber(cell(t, row, TO));
        }
    }
    TrackNumber(0)
}
