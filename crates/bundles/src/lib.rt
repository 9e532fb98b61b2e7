// The bundle: accepted, or refused. Section four is not read, but for its count.
#![tactic(auto)]

ghost use Rattle.std.specs.Prelude.{◌≡◌, ◌+◌, ◌≤◌, ◌<◌, length, IfOk};
ghost use Rattle.words.specs.Bytes.{big};
ghost use Rattle.words.specs.Refusals.{ok, ◌and_then◌, ◌at_place◌};
ghost use Rattle.words.specs.Lists.{sum};
ghost use Rattle.numbers.specs.Faults.{fault_in};
ghost use Rattle.bundles.specs.Limits.{cut, count_fault, track_most};
ghost use Rattle.bundles.specs.Fields.{sample_entry_size};
ghost use Rattle.bundles.specs.Tracks.{track_fault, references_at};
ghost use Rattle.bundles.specs.References.{no_such_track, reference_fault, references_verdict, samples_at};
ghost use Rattle.bundles.specs.Samples.{entry_at, time, length_at, entry_on, order_fault, entry_fault, lengths, samples_verdict};
ghost use Rattle.bundles.specs.Bundles.{byte_count_fault, bytes_verdict, bundle_verdict};
ghost use Rattle.bundles.specs.Answers.{answer_of};
ghost use Rattle.bundles.specs.Steps.{LengthSizes, track_read, TracksChecked, section_of};

use numbers::{Fault, Kind, Refusal};

pub mod fields;

// The most bytes of a bundle; the fewest and the most tracks, the most references and samples.
pub const BUNDLE_MOST: usize = 16777216;

const TRACK_LEAST: usize = 1;

pub const TRACK_MOST: usize = 16;

pub const REFERENCE_MOST: usize = 64;

pub const SAMPLE_MOST: usize = 4096;

// A length size for each track number, from 0 on.
const SIZES: usize = TRACK_MOST + 1;

// A track entry that was read: its length size, and where it ends.
#[derive(Clone, Copy)]
struct TrackRead {
    pub size: u8,
    pub end: usize,
}

// At least n bytes stand from a place on: else 2.
#[tactic(auto, using(words::proofs::Tests::tests))]
fn cut(b: &[u8], at: usize, n: usize) -> Result<(), Fault>
    ensures { fault_in result ≡ cut b.now at n }
{
    if b.len() < at || b.len() - at < n {
        return Err(Fault::BundleCut);
    }
    Ok(())
}

// A count of n bytes at a place: 2, 3, or the count.
#[tactic(auto, using(words::proofs::Tests::tests, numbers::proofs::Faults::faults), unfolding(crate::specs::Limits::count_fault))]
fn count_at(b: &[u8], at: usize, n: usize, least: usize, most: usize) -> Result<usize, Fault>
    requires { n ≤ 8 }
    ensures fault { fault_in result ≡ count_fault b.now at n least most }
    ensures value { IfOk result (λ count. count ≡ big b.now at n) }
{
    cut(b, at, n)?;
    let count = numbers::number(b, at, n);
    if count < least || most < count {
        return Err(Fault::CountOutOfLimits);
    }
    Ok(count)
}

// Whether there is no track of a number.
#[tactic(auto, using(words::proofs::Tests::tests), unfolding(crate::specs::References::no_such_track))]
fn no_such_track(b: &[u8], k: usize) -> bool
    ensures { result ≡ no_such_track b.now k }
{
    k == 0 || numbers::number(b, 0, fields::TRACK_COUNT_SIZE) < k
}

// The decode time that a sample's entry says.
fn sample_time(b: &[u8], at: usize) -> usize
    requires { at + sample_entry_size ≤ length b.now }
    ensures { result ≡ time b.now at }
{
    numbers::number(b, at + fields::TIME_OFFSET, fields::TIME_SIZE)
}

// The length that a sample's entry says.
fn sample_length(b: &[u8], at: usize) -> usize
    requires { at + sample_entry_size ≤ length b.now }
    ensures { (result ≡ length_at b.now at) × (result < 4294967296) }
{
    numbers::number(b, at + fields::LENGTH_OFFSET, fields::SAMPLE_LENGTH_SIZE)
}

// A sample's entry after the entry before it: else 6.
#[tactic(auto, using(words::proofs::Tests::tests), unfolding(crate::specs::Samples::order_fault))]
fn order_fault(b: &[u8], before: usize, at: usize) -> Result<(), Fault>
    requires { (before + sample_entry_size ≤ length b.now) × (at + sample_entry_size ≤ length b.now) }
    ensures { fault_in result ≡ order_fault (entry_on b.now before) (entry_on b.now at) }
{
    let earlier = numbers::number(b, before, fields::TRACK_NUMBER_SIZE);
    let track = numbers::number(b, at, fields::TRACK_NUMBER_SIZE);
    if track < earlier || track == earlier && sample_time(b, at) <= sample_time(b, before) {
        return Err(Fault::BadTrackOrTime);
    }
    Ok(())
}

// The fourth count at a place, where the lengths add to a total: else 7 or 2.
#[tactic(auto, using(words::proofs::Tests::tests, numbers::proofs::Faults::faults), unfolding(crate::specs::Bundles::byte_count_fault))]
fn byte_count_fault(b: &[u8], at: usize, total: usize) -> Result<(), Fault>
    ensures { fault_in result ≡ byte_count_fault b.now at total }
{
    cut(b, at, fields::BYTE_COUNT_SIZE)?;
    let n = numbers::number(b, at, fields::BYTE_COUNT_SIZE);
    if n != total {
        return Err(Fault::BadByteCount);
    }
    let rest = b.len() - at - fields::BYTE_COUNT_SIZE;
    if rest < n {
        return Err(Fault::BundleCut);
    }
    if n < rest {
        return Err(Fault::BadByteCount);
    }
    Ok(())
}

// The reference at a place: else 2 or 5.
#[tactic(auto, using(words::proofs::Tests::tests, numbers::proofs::Faults::faults, crate::proofs::Checking::size_on), unfolding(crate::specs::References::reference_fault))]
fn reference_fault(b: &[u8], sizes: &[u8], at: usize) -> Result<(), Fault>
    requires { LengthSizes b.now sizes.now }
    ensures { fault_in result ≡ reference_fault b.now at }
{
    cut(b, at, fields::REFERENCE_SIZE)?;
    let from = numbers::number(b, at, fields::TRACK_NUMBER_SIZE);
    let to = numbers::number(b, at + fields::TO_OFFSET, fields::TRACK_NUMBER_SIZE);
    if no_such_track(b, from)
        || no_such_track(b, to)
        || from == to
        || numbers::byte(sizes, from) != numbers::byte(sizes, to)
    {
        return Err(Fault::BadReference);
    }
    Ok(())
}

// Entry n, at its place: else 2 or 6.
#[tactic(auto, using(words::proofs::Tests::tests, numbers::proofs::Faults::faults), unfolding(crate::specs::Samples::entry_fault))]
fn entry_fault(b: &[u8], n: usize, at: usize) -> Result<(), Fault>
    requires { (0 < n) × (at ≡ entry_at b.now n) }
    ensures { fault_in result ≡ entry_fault b.now n }
{
    cut(b, at, fields::ENTRY_SIZE)?;
    if no_such_track(b, numbers::number(b, at, fields::TRACK_NUMBER_SIZE)) {
        return Err(Fault::BadTrackOrTime);
    }
    if n == 1 {
        return Ok(());
    }
    order_fault(b, at - fields::ENTRY_SIZE, at)
}

// Section two, at its place.
fn check_references(b: &[u8], sizes: &[u8], at: usize) -> Result<usize, Refusal>
    requires { (at ≡ references_at b.now) × LengthSizes b.now sizes.now }
    ensures { section_of result ≡ (references_verdict b.now and_then ok (samples_at b.now)) }
{
    let count = count_at(b, at, fields::REFERENCE_COUNT_SIZE, 0, REFERENCE_MOST);
    let n = numbers::at_place(count, at)?;
    let mut p = at + fields::REFERENCE_COUNT_SIZE;
    for _ in 0..n {
        numbers::at_place(reference_fault(b, sizes, p), p)?;
        p += fields::REFERENCE_SIZE;
    }
    Ok(p)
}

// Section three, at its place: the sum of the samples' lengths.
fn check_samples(b: &[u8], at: usize) -> Result<usize, Refusal>
    requires { at ≡ samples_at b.now }
    ensures { section_of result ≡ (samples_verdict b.now and_then ok (sum (lengths b.now))) }
{
    let count = count_at(b, at, fields::SAMPLE_COUNT_SIZE, 0, SAMPLE_MOST);
    let n = numbers::at_place(count, at)?;
    let mut p = at + fields::SAMPLE_COUNT_SIZE;
    let mut total: usize = 0;
    for i in 0..n {
        numbers::at_place(entry_fault(b, i + 1, p), p)?;
        total += sample_length(b, p);
        p += fields::ENTRY_SIZE;
    }
    Ok(total)
}

// The track entry at a place: 2, 4, or its record's refusal.
#[tactic(auto, using(words::proofs::Tests::tests, numbers::proofs::Faults::faults), unfolding(crate::specs::Tracks::track_fault, crate::specs::Tracks::size_at))]
fn read_track(b: &[u8], at: usize) -> Result<TrackRead, Fault>
    ensures fault { fault_in result ≡ track_fault b.now at }
    ensures value { IfOk result (λ t. t ≡ track_read b.now at) }
{
    cut(b, at, fields::TRACK_HEAD_SIZE)?;
    let n = numbers::number(
        b,
        at + fields::RECORD_LENGTH_OFFSET,
        fields::RECORD_LENGTH_SIZE,
    );
    let start = at + fields::TRACK_HEAD_SIZE;
    cut(b, start, n)?;
    let end = start + n;
    match Kind::from_number(b[at] as u32) {
        None => Err(Fault::UnknownKind),
        Some(k) => {
            let record = records::record_of(k, &b[start..end])?;
            Ok(TrackRead {
                size: record.fields.length_size as u8,
                end,
            })
        }
    }
}

// Section one: where it ends. The length size of track k is put at k of sizes.
fn check_tracks(b: &[u8], sizes: &mut [u8]) -> Result<usize, Refusal>
    requires { length sizes.old ≡ track_most + 1 }
    ensures { TracksChecked b.now result sizes.new }
{
    let count = count_at(b, 0, fields::TRACK_COUNT_SIZE, TRACK_LEAST, TRACK_MOST);
    let n = numbers::at_place(count, 0)?;
    let mut p = fields::TRACK_COUNT_SIZE;
    for size in &mut sizes[1..=n] {
        let t = numbers::at_place(read_track(b, p), p)?;
        *size = t.size;
        p = t.end;
    }
    Ok(p)
}

// Section four, at its place, where the lengths add to a total.
fn check_bytes(b: &[u8], at: usize, total: usize) -> Result<(), Refusal>
    ensures { answer_of result ≡ byte_count_fault b.now at total at_place at }
{
    numbers::at_place(byte_count_fault(b, at, total), at)
}

// Sections three and four, at their place.
fn check_contents(b: &[u8], at: usize) -> Result<(), Refusal>
    requires { at ≡ samples_at b.now }
    ensures { answer_of result ≡ (samples_verdict b.now and_then bytes_verdict b.now) }
{
    let total = check_samples(b, at)?;
    let n = numbers::number(b, at, fields::SAMPLE_COUNT_SIZE);
    check_bytes(
        b,
        at + fields::SAMPLE_COUNT_SIZE + n * fields::ENTRY_SIZE,
        total,
    )
}

// Sections two to four, at their place.
fn check_after_tracks(b: &[u8], sizes: &[u8], at: usize) -> Result<(), Refusal>
    requires { (at ≡ references_at b.now) × LengthSizes b.now sizes.now }
    ensures { answer_of result ≡ (references_verdict b.now and_then samples_verdict b.now and_then bytes_verdict b.now) }
{
    let p = check_references(b, sizes, at)?;
    check_contents(b, p)
}

// Whether a bundle is accepted, or what it is refused with: one pass over its first three sections.
#[tactic(auto, using(words::proofs::Tests::tests), unfolding(crate::specs::Bundles::bundle_verdict))]
pub fn check_bundle(b: &[u8]) -> Result<(), Refusal>
    ensures { answer_of result ≡ bundle_verdict b.now }
{
    if BUNDLE_MOST < b.len() {
        return Err(Refusal::at(Fault::BundleTooLong, 0));
    }
    let mut sizes = [0u8; SIZES];
    let at = check_tracks(b, &mut sizes)?;
    check_after_tracks(b, &sizes, at)
}
