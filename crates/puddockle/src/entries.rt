// What a bundle holds.
ghost use Rattle.std.specs.Prelude.{◌≡◌};
ghost use Rattle.numbers.specs.Kinds.{number_of_kind};
ghost use Rattle.bundles.specs.Readers.{first_layout};
ghost use Rattle.contents.specs.Contents.{counts_call, track_call, reference_call, sample_call};
ghost use Rattle.puddockle.specs.Returns.{ReturnedCounts, ReturnedTrack, ReturnedReference, ReturnedSample};

use crate::answer;
use numbers::{Kind, SampleNumber, TrackNumber};

// The number of a kind.
fn kind_number(kind: Kind) -> u64
    ensures { result ≡ number_of_kind kind }
{
    kind as u64
}

pub fn puddockle_counts(
    bundle: &[u8],
    place: &mut u64,
    tracks: &mut u64,
    references: &mut u64,
    samples: &mut u64,
) -> u32
    ensures { ReturnedCounts result place.new tracks.new references.new samples.new (counts_call first_layout bundle.now) }
{
    *place = 0;
    *tracks = 0;
    *references = 0;
    *samples = 0;
    match contents::bundle_counts(bundle) {
        Err(f) => answer::refused(f, place),
        Ok(c) => {
            *tracks = c.tracks as u64;
            *references = c.references as u64;
            *samples = c.samples as u64;
            0
        }
    }
}

pub fn puddockle_track(
    bundle: &[u8],
    track: u64,
    place: &mut u64,
    kind: &mut u64,
    record_start: &mut u64,
    record_length: &mut u64,
) -> u32
    ensures { ReturnedTrack result place.new kind.new record_start.new record_length.new (track_call first_layout bundle.now track) }
{
    *place = 0;
    *kind = 0;
    *record_start = 0;
    *record_length = 0;
    match contents::track_entry(bundle, TrackNumber(track as usize)) {
        Err(f) => answer::refused(f, place),
        Ok(e) => {
            let at = e.start;
            let track_kind = e.kind;
            *kind = kind_number(track_kind);
            *record_start = at.0 as u64;
            *record_length = e.size as u64;
            0
        }
    }
}

pub fn puddockle_reference(
    bundle: &[u8],
    reference: u64,
    place: &mut u64,
    from: &mut u64,
    to: &mut u64,
) -> u32
    ensures { ReturnedReference result place.new from.new to.new (reference_call first_layout bundle.now reference) }
{
    *place = 0;
    *from = 0;
    *to = 0;
    match contents::reference_entry(bundle, reference as usize) {
        Err(f) => answer::refused(f, place),
        Ok(e) => {
            let from_track = e.from;
            let to_track = e.to;
            *from = from_track.0 as u64;
            *to = to_track.0 as u64;
            0
        }
    }
}

pub fn puddockle_sample(
    bundle: &[u8],
    sample: u64,
    place: &mut u64,
    track: &mut u64,
    time: &mut u64,
    start: &mut u64,
    length: &mut u64,
) -> u32
    ensures { ReturnedSample result place.new track.new time.new start.new length.new (sample_call first_layout bundle.now sample) }
{
    *place = 0;
    *track = 0;
    *time = 0;
    *start = 0;
    *length = 0;
    match contents::sample_entry(bundle, SampleNumber(sample as usize)) {
        Err(f) => answer::refused(f, place),
        Ok(e) => {
            let own_track = e.track;
            let at = e.start;
            *track = own_track.0 as u64;
            *time = e.time;
            *start = at.0 as u64;
            *length = e.size as u64;
            0
        }
    }
}
