// Section one of an accepted bundle.
ghost use Rattle.std.specs.Prelude.{◌≡◌, ◌≤◌, ◌<◌};
ghost use Rattle.words.specs.Refusals.{ok};
ghost use Rattle.words.specs.Lists.{nth};
ghost use Rattle.bundles.specs.Tracks.{track_count, record_length, track_fault, track_places};
ghost use Rattle.bundles.specs.Bundles.{bundle_verdict};

use bundles::fields;

// The length of the record of the track entry at a place.
pub(crate) fn record_length(b: &[u8], p: usize) -> usize
    requires { track_fault b.now p ≡ 0 }
    ensures { result ≡ record_length b.now p }
{
    numbers::number(
        b,
        p + fields::RECORD_LENGTH_OFFSET,
        fields::RECORD_LENGTH_SIZE,
    )
}

// Where the entry of track k starts.
pub(crate) fn place(b: &[u8], k: usize) -> usize
    requires { (bundle_verdict b.now ≡ ok tt) × (0 < k) × (k ≤ track_count b.now) }
    ensures { (result ≡ nth (track_places b.now) k 0) × (track_fault b.now result ≡ 0) }
{
    let mut p = fields::TRACK_COUNT_SIZE;
    for i in 1..k {
        p = p + fields::TRACK_HEAD_SIZE + record_length(b, p);
    }
    p
}
