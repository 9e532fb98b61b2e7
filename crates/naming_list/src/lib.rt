// The naming list: the extractors that name a sample.
#![tactic(auto)]

ghost use Rattle.std.specs.Prelude.{◌≡◌, map, ℕ, ◌+◌, ◌*◌, ◌≤◌, ◌<◌, length};
ghost use Rattle.words.specs.Tests.{pick};
ghost use Rattle.words.specs.Refusals.{refused, ok};
ghost use Rattle.words.specs.Buffers.{write_at, overwrite, within, Wrote};
ghost use Rattle.numbers.specs.Answers.{answer_of};
ghost use Rattle.units.specs.Units.{sample};
ghost use Rattle.samples.specs.Check.{check};
ghost use Rattle.bundles.specs.Limits.{bundle_most};
ghost use Rattle.bundles.specs.Recordings.{sample_count};
ghost use Rattle.bundles.specs.Readers.{first_layout};
ghost use Rattle.tables.specs.Tables.{table_most, layout_in, recording_in, kept_count_in};
ghost use Rattle.naming_list_rules.specs.Naming.{namer, namers_in, naming_list, list_entry_size, list_bytes, names, names_call};
ghost use Rattle.naming_list.specs.Entries.{list_entry_in};
ghost use Rattle.naming_list.specs.Steps.{names_with, names_at, namers_from, list_most, with_entry, counts_upto, counts_for, names_in, table_in};

use numbers::{ByteOffset, Fault, PLACE_SIZE, Refusal, SampleNumber};
use unit_steps::Item;
use units::{Extractor, Track};

// An entry of the list: the number of the extractor's own sample in 2 bytes, its place there in 4.
const SAMPLE_SIZE: usize = 2;

pub const ENTRY_SIZE: usize = SAMPLE_SIZE + PLACE_SIZE;

// An extractor of the list: its own sample, and its place there.
#[derive(Clone, Copy)]
pub struct Entry {
    pub sample: SampleNumber,
    pub place: ByteOffset,
}

// What an entry's bytes say.
pub fn entry_of(entry: &[u8]) -> Entry
    ensures { result ≡ list_entry_in entry.now }
{
    let sample = numbers::number(entry, 0, SAMPLE_SIZE);
    let place = numbers::number(entry, SAMPLE_SIZE, PLACE_SIZE);
    Entry {
        sample: SampleNumber(sample),
        place: ByteOffset(place),
    }
}

// Whether an extractor in sample n names sample s.
fn names_with(t: &[u64], n: SampleNumber, f: Extractor, s: SampleNumber) -> bool
    ensures { result ≡ names_with (layout_in t.now) s.0 n.0 f }
{
    match links::name(t, n, f.track_ref_index, f.sample_offset) {
        Err(_) => false,
        Ok(m) => m.0 == s.0,
    }
}

// Whether the unit at a place of sample n, which is x, is an extractor that names sample s.
fn names_at(t: &[u64], n: SampleNumber, k: Track, x: &[u8], at: ByteOffset, s: SampleNumber) -> bool
    ensures { result ≡ names_at (layout_in t.now) s.0 n.0 (sample k x.now) at.0 }
{
    match unit_steps::extractor_at(k, x, at, ByteOffset(x.len())) {
        Some(f) => names_with(t, n, f, s),
        None => false,
    }
}

// An entry over a buffer, where there is room for it.
fn put_entry(out: &mut [u8], at: usize, n: SampleNumber, p: ByteOffset)
    requires { at ≤ list_most * 2 }
    ensures { out.new ≡ with_entry out.old at n.0 p.0 }
{
    numbers::put_number(out, at, SAMPLE_SIZE, n.0);
    numbers::put_number(out, at + SAMPLE_SIZE, PLACE_SIZE, p.0);
}

// The entry of the unit at a place of sample n, which is x, if that names sample s: how many entries this is.
fn put_namer(
    out: &mut [u8],
    at: usize,
    t: &[u64],
    n: SampleNumber,
    k: Track,
    x: &[u8],
    p: ByteOffset,
    s: SampleNumber,
) -> usize
    requires { at ≤ list_most * 2 }
    ensures { (result ≡ pick (names_at (layout_in t.now) s.0 n.0 (sample k x.now) p.0) 1 0)
        × (out.new ≡ pick (names_at (layout_in t.now) s.0 n.0 (sample k x.now) p.0) (with_entry out.old at n.0 p.0) out.old) }
{
    if names_at(t, n, k, x, p, s) {
        put_entry(out, at, n, p);
        return 1;
    }
    0
}

// The extractors of sample n, which is x and well formed, that name sample s: how many they are. Their entries are written where there is
// room for them all.
fn put_namers(
    out: &mut [u8],
    at: usize,
    t: &[u64],
    n: SampleNumber,
    k: Track,
    x: &[u8],
    s: SampleNumber,
) -> usize
    requires { (check (sample k x.now) ≡ ok tt) × (length x.now ≤ bundle_most) × (at ≤ list_most) }
    ensures { (result ≡ length (namers_from (layout_in t.now) s.0 n.0 (sample k x.now) 0))
        × (at + result * list_entry_size ≤ length out.old
        → out.new ≡ write_at out.old at (list_bytes (map (namer n.0) (namers_from (layout_in t.now) s.0 n.0 (sample k x.now) 0)))) }
{
    let mut count: usize = 0;
    let mut p: usize = 0;
    while p < x.len() {
        match unit_steps::item_at(k, x, ByteOffset(p)) {
            // does not come: the sample is well formed
            Item::Nothing => {
                return count;
            }
            Item::Aggregator(included) => {
                p = included.0;
            }
            Item::Extractor(next) => {
                let found = put_namer(out, at + count * ENTRY_SIZE, t, n, k, x, ByteOffset(p), s);
                count += found;
                p = next.0;
            }
            Item::Unit(u) => {
                p = u.next.0;
            }
        }
    }
    count
}

// How many extractors of sample n name sample s; none where sample n is not well formed.
fn count_in(b: &[u8], t: &[u64], n: SampleNumber, s: SampleNumber) -> usize
    requires { length b.now ≤ bundle_most }
    ensures { result ≡ length (namers_in (recording_in b.now t.now) s.0 n.0) }
{
    let k = delivery::track_of(t, n);
    let x = sample_tables::sample_bytes(b, t, n);
    match samples::check_sample(k, x) {
        Err(_) => 0,
        Ok(()) => {
            let mut nothing = [0u8; 1];
            put_namers(&mut nothing, 0, t, n, k, x, s)
        }
    }
}

// How many extractors name sample s. The count kept beside each sample tells how many of them stand in it.
fn count_all(b: &[u8], t: &mut [u64], s: SampleNumber) -> usize
    requires { (length b.now ≤ bundle_most) × (table_most ≤ length t.old) }
    ensures { (result ≡ length (naming_list (recording_in b.now t.old) s.0))
        × (recording_in b.now t.new ≡ recording_in b.now t.old)
        × ((m : ℕ) → 0 < m → m ≤ sample_count (layout_in t.old) → kept_count_in t.new m ≡ length (namers_in (recording_in b.now t.old) s.0 m))
        × (t.new ≡ counts_upto b.now t.old s.0 (sample_count (layout_in t.old))) }
{
    let total = sample_tables::sample_count(t);
    let mut count = 0;
    for n in 0..total {
        let sample = SampleNumber(n + 1);
        let found = count_in(b, t, sample, s);
        sample_tables::keep_count(t, sample, found as u64);
        count += found;
    }
    count
}

// The naming list of sample s over the start of a buffer that has room, by a table with the counts kept.
fn put_list(out: &mut [u8], b: &[u8], t: &[u64], s: SampleNumber)
    requires { (length b.now ≤ bundle_most)
        × (length (list_bytes (naming_list (recording_in b.now t.now) s.0)) ≤ length out.old)
        × ((m : ℕ) → 0 < m → m ≤ sample_count (layout_in t.now) → kept_count_in t.now m ≡ length (namers_in (recording_in b.now t.now) s.0 m)) }
    ensures { out.new ≡ overwrite out.old (list_bytes (naming_list (recording_in b.now t.now) s.0)) }
{
    let total = sample_tables::sample_count(t);
    let mut at = 0;
    for n in 0..total {
        let sample = SampleNumber(n + 1);
        if sample_tables::kept_count(t, sample) != 0 {
            let k = delivery::track_of(t, sample);
            let x = sample_tables::sample_bytes(b, t, sample);
            let found = put_namers(out, at, t, sample, k, x, s);
            at += found * ENTRY_SIZE;
        }
    }
}

// The naming list of sample s: 30, 29, or the list over the start of the buffer.
fn list_sample(b: &[u8], t: &mut [u64], s: SampleNumber, out: &mut [u8]) -> Result<usize, Refusal>
    requires { (length b.now ≤ bundle_most) × (table_most ≤ length t.old) }
    ensures { Wrote out.old out.new (answer_of result)
        (within (length out.old) (names (recording_in b.now t.old) s.0))
        × (t.new ≡ counts_for b.now t.old s.0) }
{
    judging::check_number(sample_tables::sample_count(t), s.0)?;
    let count = count_all(b, t, s);
    let size = count * ENTRY_SIZE;
    if out.len() < size {
        return Err(Refusal::at(Fault::OutputTooLong, 0));
    }
    put_list(out, b, t, s);
    Ok(size)
}

// The same by a bundle and any table beside it, in which the counts are kept. A bundle too long, or a table too short for any bundle, is refused
// first.
pub fn names_in(b: &[u8], t: &mut [u64], s: SampleNumber, out: &mut [u8]) -> Result<usize, Refusal>
    ensures { Wrote out.old out.new (answer_of result) (names_in b.now t.old s.0 (length out.old))
        × (t.new ≡ table_in b.now t.old s.0) }
{
    if bundles::BUNDLE_MOST < b.len() {
        return Err(Refusal::at(Fault::BundleTooLong, 0));
    }
    if t.len() < tables::TABLE_SIZE {
        return Err(Refusal::at(Fault::BundleTooLong, 0));
    }
    list_sample(b, t, s, out)
}

// The extractors that name sample s: 1 to 13, 30, 29; or the list over the start of the buffer, 6 bytes an extractor, and how many bytes
// that is. After a refusal the buffer is as it was.
pub fn names(b: &[u8], s: SampleNumber, out: &mut [u8]) -> Result<usize, Refusal>
    ensures { Wrote out.old out.new (answer_of result) (names_call first_layout b.now s.0 (length out.old)) }
{
    let mut t = [0u64; tables::TABLE_SIZE];
    filling::fill_table(b, &mut t)?;
    list_sample(b, &mut t, s, out)
}
