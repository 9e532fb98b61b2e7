// The samples that a table says: track, time, bytes, and the samples of a track. Every function takes any bundle and any table.
#![tactic(auto)]

ghost use Rattle.std.specs.Prelude.{◌≡◌, ◌≤◌, ◌<◌};
ghost use Rattle.bundles.specs.Limits.{sample_most};
ghost use Rattle.bundles.specs.Recordings.{sample_count, track_of, time_of, samples_in, content_of};
ghost use Rattle.tables.specs.Tables.{sample_total, track_total, sample_cell, start_in, kept_count_in, with_kept_count, inside, owner_in, after_in, range_in, numbers_in, layout_in, recording_in};

use numbers::{ByteOffset, SampleNumber, TrackNumber};
use tables::SampleRange;

// The columns of a sample: its decode time, where its bytes start, how many they are, and a count that the crates above keep for it.
const TIME: usize = 0;

const START: usize = 1;

const LENGTH: usize = 2;

const KEPT_COUNT: usize = 3;

// The number of samples, at most as many as there may be.
fn sample_total(t: &[u64]) -> usize
    ensures { (result ≡ sample_total t.now) × (result ≤ sample_most) }
{
    tables::count(t, tables::SAMPLES, bundles::SAMPLE_MOST)
}

// How many samples there are.
pub fn sample_count(t: &[u64]) -> usize
    ensures { result ≡ sample_count (layout_in t.now) }
{
    sample_total(t)
}

// The track of sample n: the last one that has fewer than n samples before it, 0 for none.
fn owner(t: &[u64], n: usize) -> usize
    ensures { result ≡ owner_in t.now n }
{
    let total = tables::track_total(t);
    let mut found: usize = 0;
    for k in 1..=total {
        if tables::cell(t, k, tables::BEFORE) < n {
            found = k;
        }
    }
    found
}

// The track of a sample; 0 where there is no such sample.
pub fn sample_track(t: &[u64], n: SampleNumber) -> TrackNumber
    ensures { result.0 ≡ track_of (layout_in t.now) n.0 }
{
    if n.0 == 0 || sample_total(t) < n.0 {
        return TrackNumber(0);
    }
    TrackNumber(owner(t, n.0))
}

// A number of the row of a sample; 0 where there is no such sample.
fn sample_cell(t: &[u64], n: SampleNumber, column: usize) -> usize
    ensures { result ≡ sample_cell t.now n.0 column }
{
    if n.0 == 0 || sample_total(t) < n.0 {
        return 0;
    }
    tables::cell(t, tables::SAMPLE_ROW + n.0, column)
}

// The decode time of a sample; 0 where there is no such sample.
pub fn sample_time(t: &[u64], n: SampleNumber) -> u64
    ensures { result ≡ time_of (layout_in t.now) n.0 }
{
    sample_cell(t, n, TIME) as u64
}

// The bytes from a place on, or none where they do not lie in the bundle.
fn part_of(b: &[u8], start: usize, n: usize) -> &[u8]
    ensures { result.now ≡ inside b.now start n }
{
    let rest = b.get(start..).unwrap_or(&[]);
    rest.get(..n).unwrap_or(&[])
}

// The bytes of a sample, as a part of the bundle; none where there is no such sample.
pub fn sample_bytes<'a>(b: &'a [u8], t: &[u64], n: SampleNumber) -> &'a [u8]
    ensures { result.now ≡ content_of (recording_in b.now t.now) n.0 }
{
    part_of(b, sample_cell(t, n, START), sample_cell(t, n, LENGTH))
}

// Where the bytes of a sample start in the bundle; 0 where there is no such sample.
pub fn sample_start(t: &[u64], n: SampleNumber) -> ByteOffset
    ensures { result.0 ≡ start_in t.now n.0 }
{
    ByteOffset(sample_cell(t, n, START))
}

// Where the samples of a track end: at the first sample of a later track, or at the last.
fn after(t: &[u64], k: usize) -> usize
    ensures { result ≡ after_in t.now k (track_total t.now) }
{
    let total = tables::track_total(t);
    let mut end = sample_total(t);
    // stays: over all tracks; over those after track k alone it was tried, and is slower
    for j in 0..total {
        let before = tables::cell(t, j + 1, tables::BEFORE);
        if k <= j {
            end = end.min(before);
        }
    }
    end
}

// The samples of a track; none where there is no such track.
pub fn sample_range(t: &[u64], k: TrackNumber) -> SampleRange
    ensures { (result ≡ range_in t.now k.0) × (0 < k.0 → numbers_in result ≡ samples_in (layout_in t.now) k.0) }
{
    if k.0 == 0 || tables::track_total(t) < k.0 {
        return SampleRange {
            before: 0,
            after: 0,
        };
    }
    SampleRange {
        before: tables::cell(t, k.0, tables::BEFORE),
        after: after(t, k.0),
    }
}

// The count kept for a sample; 0 where there is no such sample.
pub fn kept_count(t: &[u64], n: SampleNumber) -> u64
    ensures { result ≡ kept_count_in t.now n.0 }
{
    sample_cell(t, n, KEPT_COUNT) as u64
}

// Keeps a count for a sample, where there is one.
pub fn keep_count(t: &mut [u64], n: SampleNumber, v: u64)
    ensures { t.new ≡ with_kept_count t.old n.0 v }
{
    if n.0 == 0 || sample_total(t) < n.0 {
        return;
    }
    let at = (tables::SAMPLE_ROW + n.0) * tables::COLUMNS + KEPT_COUNT;
    if at < t.len() {
        t[at] = v;
    }
}
