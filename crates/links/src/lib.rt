// Which sample an extractor names, by a table alone. Every public function takes any table and any numbers.
#![tactic(auto)]

ghost use Rattle.std.specs.Prelude.{◌≡◌, ◌≤◌, length};
ghost use Rattle.numbers.specs.Faults.{fault_in, numbered};
ghost use Rattle.bundles.specs.Limits.{sample_most};
ghost use Rattle.bundles.specs.Recordings.{samples_in};
ghost use Rattle.tables.specs.Tables.{layout_in};
ghost use Rattle.links.specs.Halving.{binary_digits};
ghost use Rattle.links.specs.Links.{link_fault, base_search, signed, stepped, sample_named};
ghost use Rattle.links.specs.Named.{sample_if_any, naming};

use numbers::{Fault, SampleNumber, TrackNumber};

// What a search for the base found, by its number within the track, 0 for none; and how many rounds it took.
#[derive(Clone, Copy)]
pub struct SearchResult {
    pub found: usize,
    pub rounds: usize,
}

// A track_ref_index 0 or past the last reference of the own sample's track.
fn link_fault(t: &[u64], n: SampleNumber, index: u8) -> Result<(), Fault>
    ensures { fault_in result ≡ link_fault (layout_in t.now) n.0 index }
{
    if index == 0
        || tables::reference_count(t, sample_tables::sample_track(t, n)) < index as usize
    {
        return Err(Fault::BadTrackRefIndex);
    }
    Ok(())
}

// The base, searched by halving: the last sample of a track at or before sample n, where the track's times rise. Those left are the
// samples after `low`, up to `high`, by their numbers within the track. 0 is no track: nothing is searched, and nothing found.
pub fn find_base(t: &[u64], n: SampleNumber, track: TrackNumber) -> SearchResult
    ensures { (result ≡ base_search (layout_in t.now) n.0 track.0) × (result.rounds ≤ binary_digits (length (samples_in (layout_in t.now) track.0))) }
{
    let own = sample_tables::sample_time(t, n);
    let range = sample_tables::sample_range(t, track);
    let mut low: usize = 0;
    let mut high = range.size();
    let mut rounds: usize = 0;
    // stays: a while, which walks by halving and counts no index
    while low < high {
        let middle = (low + high + 1) / 2;
        rounds += 1;
        let time = sample_tables::sample_time(t, SampleNumber(range.before + middle));
        if time <= own {
            low = middle;
        } else {
            high = middle - 1;
        }
    }
    SearchResult { found: low, rounds }
}

// sample_offset steps from the base. It is signed: a byte of 128 or more is 256 less. Before the first is 0.
fn stepped(b: usize, offset: u8) -> usize
    requires { b ≤ sample_most }
    ensures { result ≡ stepped b (signed offset) }
{
    let forward = b + offset as usize;
    if offset < 128 {
        forward
    } else {
        forward.saturating_sub(256)
    }
}

// The sample that an extractor names, if there is one.
fn sample_named(t: &[u64], n: SampleNumber, index: u8, offset: u8) -> Option<SampleNumber>
    ensures { result ≡ sample_if_any (sample_named (layout_in t.now) n.0 index offset) }
{
    let own = sample_tables::sample_track(t, n);
    let track = tables::reference(t, own, index as usize);
    let b = find_base(t, n, track).found;
    if b == 0 {
        return None;
    }
    let k = stepped(b, offset);
    let range = sample_tables::sample_range(t, track);
    if k == 0 || range.size() < k {
        return None;
    }
    Some(SampleNumber(range.before + k))
}

// What an extractor in sample n names, by its track_ref_index and sample_offset.
pub fn name(t: &[u64], n: SampleNumber, index: u8, offset: u8) -> Result<SampleNumber, Fault>
    ensures { numbered result ≡ naming (layout_in t.now) n.0 index offset }
{
    link_fault(t, n, index)?;
    sample_named(t, n, index, offset).ok_or(Fault::NoSampleNamed)
}
