// The table of a bundle, filled row by row into lent numbers.
#![tactic(auto)]

ghost use Rattle.std.specs.Prelude.{◌≡◌, [], ◌∷◌, ◌+◌, ◌*◌, ◌≤◌, ◌<◌, length};
ghost use Rattle.words.specs.Refusals.{ok};
ghost use Rattle.words.specs.Buffers.{write_at};
ghost use Rattle.bundles.specs.Limits.{sample_most};
ghost use Rattle.bundles.specs.Fields.{reference_count_size};
ghost use Rattle.bundles.specs.Tracks.{track_count, track_fault, size_at, references_at};
ghost use Rattle.bundles.specs.References.{reference_count};
ghost use Rattle.bundles.specs.Samples.{entry_count, entries_at};
ghost use Rattle.bundles.specs.Bundles.{bundle_verdict, layout_of, recording_of, content_at};
ghost use Rattle.bundles.specs.Readers.{first_layout};
ghost use Rattle.tables.specs.Tables.{columns, track_row, reference_row, sample_row, table_size};
ghost use Rattle.filling.specs.Filling.{samples_before, track_cells, reference_cells, sample_cells, write_rows, filling, table_after};

use bundles::fields;
use numbers::{Fault, Kind, Refusal};

// The rows of the first track, of the first reference and of the first sample.
const FIRST_TRACK: usize = tables::COUNTS_ROW + 1;

const FIRST_REFERENCE: usize = tables::REFERENCE_ROW + 1;

const FIRST_SAMPLE: usize = tables::SAMPLE_ROW + 1;

// Three numbers and a 0 over a row.
fn put_row(t: &mut [u64], row: usize, first: usize, second: usize, third: usize)
    requires { (row ≤ sample_row sample_most) × (row * columns + columns ≤ length t.old) }
    ensures { t.new ≡ write_at t.old (row * columns) (first ∷ second ∷ third ∷ 0 ∷ []) }
{
    let at = row * tables::COLUMNS;
    t[at..at + tables::COLUMNS].copy_from_slice(&[first as u64, second as u64, third as u64, 0]);
}

// Where section two starts.
fn references_at(b: &[u8]) -> usize
    requires { bundle_verdict b.now ≡ ok tt }
    ensures { result ≡ references_at b.now }
{
    let n = numbers::number(b, 0, fields::TRACK_COUNT_SIZE);
    let mut p = fields::TRACK_COUNT_SIZE;
    for _ in 0..n {
        p += fields::TRACK_HEAD_SIZE
            + numbers::number(
                b,
                p + fields::RECORD_LENGTH_OFFSET,
                fields::RECORD_LENGTH_SIZE,
            );
    }
    p
}

// The length size of the track entry at a place, as its record states it.
fn length_size_at(b: &[u8], at: usize) -> usize
    requires { track_fault b.now at ≡ 0 }
    ensures { result ≡ size_at b.now at }
{
    let known = Kind::from_number(numbers::byte(b, at) as u32);
    let start = at + fields::TRACK_HEAD_SIZE;
    let end = start
        + numbers::number(
            b,
            at + fields::RECORD_LENGTH_OFFSET,
            fields::RECORD_LENGTH_SIZE,
        );
    match known {
        Some(k) => records::length_size(k, &b[start..end]),
        None => 1,
    }
}

// How many samples the tracks before track k have, where it is known that it is at least some number.
fn samples_before(b: &[u8], start: usize, total: usize, least: usize, k: usize) -> usize
    requires { (bundle_verdict b.now ≡ ok tt) × (start ≡ entries_at b.now) × (total ≡ entry_count b.now) × (least ≤ samples_before (layout_of b.now) k) }
    ensures { result ≡ samples_before (layout_of b.now) k }
{
    for n in least..total {
        if k <= numbers::number(b, start + n * fields::ENTRY_SIZE, fields::TRACK_NUMBER_SIZE) {
            return n;
        }
    }
    total
}

// The rows of the tracks.
fn fill_tracks(b: &[u8], t: &mut [u64], start: usize, total: usize)
    requires { (bundle_verdict b.now ≡ ok tt) × (start ≡ entries_at b.now) × (total ≡ entry_count b.now) × (table_size total ≤ length t.old) }
    ensures { t.new ≡ write_rows t.old (track_row 1) (track_cells (layout_of b.now)) (track_count b.now) }
{
    let n = numbers::number(b, 0, fields::TRACK_COUNT_SIZE);
    let mut p = fields::TRACK_COUNT_SIZE;
    let mut before: usize = 0;
    for k in 0..n {
        before = samples_before(b, start, total, before, k + 1);
        let kind = numbers::number(b, p, fields::KIND_SIZE);
        let size = length_size_at(b, p);
        put_row(t, FIRST_TRACK + k, kind, size, before);
        p += fields::TRACK_HEAD_SIZE
            + numbers::number(
                b,
                p + fields::RECORD_LENGTH_OFFSET,
                fields::RECORD_LENGTH_SIZE,
            );
    }
}

// The rows of n references, the first of which stands at start.
fn fill_references(b: &[u8], t: &mut [u64], start: usize, n: usize)
    requires { (bundle_verdict b.now ≡ ok tt) × (start ≡ references_at b.now + reference_count_size) × (n ≡ reference_count b.now) × (sample_row 1 * columns ≤ length t.old) }
    ensures { t.new ≡ write_rows t.old (reference_row 1) (reference_cells (layout_of b.now)) (reference_count b.now) }
{
    let mut p = start;
    for i in 0..n {
        let from = numbers::number(b, p, fields::TRACK_NUMBER_SIZE);
        let to = numbers::number(b, p + fields::TO_OFFSET, fields::TRACK_NUMBER_SIZE);
        put_row(t, FIRST_REFERENCE + i, from, to, 0);
        p += fields::REFERENCE_SIZE;
    }
}

// The rows of n samples, the first of whose entries stands at start.
fn fill_samples(b: &[u8], t: &mut [u64], start: usize, n: usize)
    requires { (bundle_verdict b.now ≡ ok tt) × (start ≡ entries_at b.now) × (n ≡ entry_count b.now) × (table_size n ≤ length t.old) }
    ensures { t.new ≡ write_rows t.old (sample_row 1) (sample_cells (recording_of b.now) (content_at b.now)) (entry_count b.now) }
{
    let mut place = start + n * fields::ENTRY_SIZE + fields::BYTE_COUNT_SIZE;
    for i in 0..n {
        let p = start + i * fields::ENTRY_SIZE;
        let time = numbers::number(b, p + fields::TIME_OFFSET, fields::TIME_SIZE);
        let size = numbers::number(b, p + fields::LENGTH_OFFSET, fields::SAMPLE_LENGTH_SIZE);
        put_row(t, FIRST_SAMPLE + i, time, place, size);
        place += size;
    }
}

// The table of an accepted bundle, if there is room.
fn fill_accepted(b: &[u8], t: &mut [u64]) -> Result<(), Refusal>
    requires { bundle_verdict b.now ≡ ok tt }
    ensures { (result ≡ filling first_layout b.now (length t.old)) × (t.new ≡ table_after first_layout b.now t.old) }
{
    let tracks = numbers::number(b, 0, fields::TRACK_COUNT_SIZE);
    let at = references_at(b);
    let references = numbers::number(b, at, fields::REFERENCE_COUNT_SIZE);
    let samples_at = at + fields::REFERENCE_COUNT_SIZE + references * fields::REFERENCE_SIZE;
    let samples = numbers::number(b, samples_at, fields::SAMPLE_COUNT_SIZE);
    let needed = (tables::SAMPLE_ROW + (samples + 1)) * tables::COLUMNS;
    if t.len() < needed {
        return Err(Refusal::at(Fault::OutputTooLong, 0));
    }
    put_row(t, tables::COUNTS_ROW, tracks, references, samples);
    fill_tracks(b, t, samples_at + fields::SAMPLE_COUNT_SIZE, samples);
    fill_references(b, t, at + fields::REFERENCE_COUNT_SIZE, references);
    fill_samples(b, t, samples_at + fields::SAMPLE_COUNT_SIZE, samples);
    Ok(())
}

// The table of a bundle, filled in one more pass over its first three sections once it is accepted:
// 1 to 13, 29, or done.
pub fn fill_table(b: &[u8], t: &mut [u64]) -> Result<(), Refusal>
    ensures { (result ≡ filling first_layout b.now (length t.old)) × (t.new ≡ table_after first_layout b.now t.old) }
{
    bundles::check_bundle(b)?;
    fill_accepted(b, t)
}
