// What a bundle holds.
ghost use Rattle.bundles.specs.Readers.{first_layout};
ghost use Rattle.contents.specs.Contents.{counts_call, track_call, reference_call, sample_call};
ghost use Rattle.puddockle.specs.Returns.{ReturnedCounts, ReturnedTrack, ReturnedReference, ReturnedSample};

#[unsafe(no_mangle)]
pub extern "C" fn puddockle_counts(
    bundle: &[u8],
    place: &mut u64,
    tracks: &mut u64,
    references: &mut u64,
    samples: &mut u64,
) -> u32
    ensures { ReturnedCounts result place.new tracks.new references.new samples.new (counts_call first_layout bundle.now) }
{
    puddockle::entries::puddockle_counts(bundle, place, tracks, references, samples)
}

#[unsafe(no_mangle)]
pub extern "C" fn puddockle_track(
    bundle: &[u8],
    track: u64,
    place: &mut u64,
    kind: &mut u64,
    record_start: &mut u64,
    record_length: &mut u64,
) -> u32
    ensures { ReturnedTrack result place.new kind.new record_start.new record_length.new (track_call first_layout bundle.now track) }
{
    puddockle::entries::puddockle_track(bundle, track, place, kind, record_start, record_length)
}

#[unsafe(no_mangle)]
pub extern "C" fn puddockle_reference(
    bundle: &[u8],
    reference: u64,
    place: &mut u64,
    from: &mut u64,
    to: &mut u64,
) -> u32
    ensures { ReturnedReference result place.new from.new to.new (reference_call first_layout bundle.now reference) }
{
    puddockle::entries::puddockle_reference(bundle, reference, place, from, to)
}

#[unsafe(no_mangle)]
pub extern "C" fn puddockle_sample(
    bundle: &[u8],
    sample: u64,
    place: &mut u64,
    track: &mut u64,
    time: &mut u64,
    start: &mut u64,
    length: &mut u64,
) -> u32
    ensures { ReturnedSample result place.new track.new time.new start.new length.new (sample_call first_layout bundle.now sample) }
{
    puddockle::entries::puddockle_sample(bundle, sample, place, track, time, start, length)
}
