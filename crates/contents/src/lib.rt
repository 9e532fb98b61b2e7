// What a bundle holds: how many tracks, references and samples, and what its sections say of each.
#![tactic(auto)]

mod tracks;

ghost use Rattle.std.specs.Prelude.{◌≡◌};
ghost use Rattle.bundles.specs.Readers.{first_layout};
ghost use Rattle.contents.specs.Contents.{counts_call, track_call, reference_call, sample_call};
ghost use Rattle.contents.specs.Answers.{counts_answer_of, track_answer_of, reference_answer_of, sample_answer_of};

use bundles::fields;
use numbers::{ByteOffset, Kind, Refusal, SampleNumber, TrackNumber};

// How many tracks, references and samples there are.
#[derive(Clone, Copy)]
pub struct Counts {
    pub tracks: usize,
    pub references: usize,
    pub samples: usize,
}

// A track: its kind, and where in the bundle its record stands.
#[derive(Clone, Copy)]
pub struct TrackEntry {
    pub kind: Kind,
    pub start: ByteOffset,
    pub size: usize,
}

// A reference from a track to a track.
#[derive(Clone, Copy)]
pub struct Reference {
    pub from: TrackNumber,
    pub to: TrackNumber,
}

// A sample: its track, its decode time, and where in the bundle its bytes stand.
#[derive(Clone, Copy)]
pub struct SampleEntry {
    pub track: TrackNumber,
    pub time: u64,
    pub start: ByteOffset,
    pub size: usize,
}

// How many tracks, references and samples a bundle has: 1 to 13, or the counts.
pub fn bundle_counts(b: &[u8]) -> Result<Counts, Refusal>
    ensures { counts_answer_of result ≡ counts_call first_layout b.now }
{
    let mut t = [0u64; tables::TABLE_SIZE];
    filling::fill_table(b, &mut t)?;
    Ok(Counts {
        tracks: tables::track_total(&t),
        references: tables::reference_total(&t),
        samples: sample_tables::sample_count(&t),
    })
}

// Track k: 1 to 13, 30, or its kind and where its record stands.
pub fn track_entry(b: &[u8], k: TrackNumber) -> Result<TrackEntry, Refusal>
    ensures { track_answer_of result ≡ track_call first_layout b.now k.0 }
{
    let mut t = [0u64; tables::TABLE_SIZE];
    filling::fill_table(b, &mut t)?;
    judging::check_number(tables::track_total(&t), k.0)?;
    let p = tracks::place(b, k.0);
    Ok(TrackEntry {
        kind: tables::track_kind(&t, k),
        start: ByteOffset(p + fields::TRACK_HEAD_SIZE),
        size: tracks::record_length(b, p),
    })
}

// Reference i: 1 to 13, 30, or the tracks that it joins.
pub fn reference_entry(b: &[u8], i: usize) -> Result<Reference, Refusal>
    ensures { reference_answer_of result ≡ reference_call first_layout b.now i }
{
    let mut t = [0u64; tables::TABLE_SIZE];
    filling::fill_table(b, &mut t)?;
    judging::check_number(tables::reference_total(&t), i)?;
    let row = tables::REFERENCE_ROW + i;
    Ok(Reference {
        from: TrackNumber(tables::cell(&t, row, tables::FROM)),
        to: TrackNumber(tables::cell(&t, row, tables::TO)),
    })
}

// Sample n: 1 to 13, 30, or its track, its decode time, and where its bytes stand.
pub fn sample_entry(b: &[u8], n: SampleNumber) -> Result<SampleEntry, Refusal>
    ensures { sample_answer_of result ≡ sample_call first_layout b.now n.0 }
{
    let mut t = [0u64; tables::TABLE_SIZE];
    filling::fill_table(b, &mut t)?;
    judging::check_number(sample_tables::sample_count(&t), n.0)?;
    let content = sample_tables::sample_bytes(b, &t, n);
    Ok(SampleEntry {
        track: sample_tables::sample_track(&t, n),
        time: sample_tables::sample_time(&t, n),
        start: sample_tables::sample_start(&t, n),
        size: content.len(),
    })
}
