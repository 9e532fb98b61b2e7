// What is known of the samples of a bundle: the form of each, checked once, in a number a sample; and the marks of those that are well formed.
ghost use Rattle.std.specs.Prelude.{◌≡◌, ◌≤◌, ◌<◌, length, get_or};
ghost use Rattle.units.specs.Units.{sample};
ghost use Rattle.bundles.specs.Limits.{bundle_most};
ghost use Rattle.verdicts.specs.Surveys.{packed, word_most, rows_most, Told, Survey, Ready};

use numbers::{ByteOffset, SampleNumber};
use unit_steps::Item;
use units::Track;

// As many numbers are enough for the forms of all samples, numbered from 1.
pub(crate) const FORMS_SIZE: usize = bundles::SAMPLE_MOST + 1;

// And as many for the marks of any accepted bundle: its samples lie in it without overlap, so together they have no more blocks.
pub(crate) const ROWS_SIZE: usize = bundles::BUNDLE_MOST / marks::BLOCK * marks::ROW;

// What is known of a sample, in one number: 0 where nothing is; FORMED, then the row of its first mark; or its refusal, then the place.
pub(crate) const FORMED: u64 = 1;

// The first of two numbers in one is below it.
pub(crate) const PACKING: u64 = 256;

// A small number and another in one.
pub(crate) fn word(number: u64, value: usize) -> u64
    requires { packed number value ≤ word_most }
    ensures { result ≡ packed number value }
{
    number + value as u64 * PACKING
}

// What is known of sample m.
pub(crate) fn known(forms: &[u64], m: SampleNumber) -> u64
    ensures { result ≡ get_or forms.now m.0 0 }
{
    forms.get(m.0).copied().unwrap_or(0)
}

// The form of a sample, which is x: it is checked and, where it is well formed and there is room, marked from row base on.
fn mark_one(k: Track, x: &[u8], rows: &mut [u32], base: usize) -> u64
    requires { (length x.now ≤ bundle_most) × (base ≤ rows_most) }
    ensures { Told (sample k x.now) base rows.old result rows.new }
{
    match samples::check_sample(k, x) {
        Err(f) => word(f.number as u64, f.place.0),
        Ok(()) => {
            let most = rows.len() / marks::ROW;
            if most < base + x.len() / marks::BLOCK {
                return 0;
            }
            marks::mark(k, x, rows, base);
            word(FORMED, base)
        }
    }
}

// Sample m checked and marked, if nothing is known of it; how many rows are used then.
fn mark_sample(
    b: &[u8],
    t: &[u64],
    forms: &mut [u64],
    rows: &mut [u32],
    used: usize,
    m: SampleNumber,
) -> usize
    requires { (length b.now ≤ bundle_most) × (length rows.old ≤ rows_most) × Survey b.now t.now forms.old rows.old used }
    ensures { Survey b.now t.now forms.new rows.new result }
{
    let at = m.0;
    if forms.len() <= at {
        return used;
    }
    if forms[at] != 0 {
        return used;
    }
    let k = delivery::track_of(t, m);
    let x = sample_tables::sample_bytes(b, t, m);
    let form = mark_one(k, x, rows, used);
    forms[at] = form;
    if form % PACKING == FORMED {
        return used + x.len() / marks::BLOCK;
    }
    used
}

// All samples checked and marked, each once.
pub(crate) fn mark_all(b: &[u8], t: &[u64], forms: &mut [u64], rows: &mut [u32])
    requires { (length b.now ≤ bundle_most) × (length rows.old ≤ rows_most) × Survey b.now t.now forms.old rows.old 0 }
    ensures { Ready b.now t.now forms.new rows.new }
{
    let count = sample_tables::sample_count(t);
    let mut used: usize = 0;
    for n in 0..count {
        used = mark_sample(b, t, forms, rows, used, SampleNumber(n + 1));
    }
}

// The sample that the extractor at a place of sample n names, which is x; how many rows are used then.
fn mark_linked(
    b: &[u8],
    t: &[u64],
    n: SampleNumber,
    k: Track,
    x: &[u8],
    at: ByteOffset,
    forms: &mut [u64],
    rows: &mut [u32],
    used: usize,
) -> usize
    requires { (length b.now ≤ bundle_most) × (length rows.old ≤ rows_most) × Survey b.now t.now forms.old rows.old used }
    ensures { Survey b.now t.now forms.new rows.new result }
{
    let Some(f) = unit_steps::extractor_at(k, x, at, ByteOffset(x.len())) else {
        return used;
    };
    let Ok(m) = links::name(t, n, f.track_ref_index, f.sample_offset) else {
        return used;
    };
    mark_sample(b, t, forms, rows, used, m)
}

// The samples checked and marked that the extractors of sample n name, which is x, each once; how many rows are used then.
fn mark_named_from(
    b: &[u8],
    t: &[u64],
    n: SampleNumber,
    k: Track,
    x: &[u8],
    forms: &mut [u64],
    rows: &mut [u32],
    rows_used: usize,
) -> usize
    requires { (length b.now ≤ bundle_most) × (length rows.old ≤ rows_most) × Survey b.now t.now forms.old rows.old rows_used }
    ensures { Survey b.now t.now forms.new rows.new result }
{
    let mut used = rows_used;
    let mut p: usize = 0;
    while p < x.len() {
        match unit_steps::item_at(k, x, ByteOffset(p)) {
            Item::Nothing => {
                return used;
            }
            Item::Aggregator(included) => {
                p = included.0;
            }
            Item::Extractor(next) => {
                used = mark_linked(b, t, n, k, x, ByteOffset(p), forms, rows, used);
                p = next.0;
            }
            Item::Unit(u) => {
                p = u.next.0;
            }
        }
    }
    used
}

// The samples checked and marked that the extractors of sample n name, which is x, each once.
pub(crate) fn mark_named(
    b: &[u8],
    t: &[u64],
    n: SampleNumber,
    k: Track,
    x: &[u8],
    forms: &mut [u64],
    rows: &mut [u32],
)
    requires { (length b.now ≤ bundle_most) × (length rows.old ≤ rows_most) × Survey b.now t.now forms.old rows.old 0 }
    ensures { Ready b.now t.now forms.new rows.new }
{
    mark_named_from(b, t, n, k, x, forms, rows, 0);
}

// Sample n checked and marked and, if it is well formed, those that its extractors name; how many rows are used then.
fn mark_with_named(
    b: &[u8],
    t: &[u64],
    n: SampleNumber,
    forms: &mut [u64],
    rows: &mut [u32],
    used: usize,
) -> usize
    requires { (length b.now ≤ bundle_most) × (length rows.old ≤ rows_most) × Survey b.now t.now forms.old rows.old used }
    ensures { Survey b.now t.now forms.new rows.new result }
{
    let more = mark_sample(b, t, forms, rows, used, n);
    if known(forms, n) % PACKING != FORMED {
        return more;
    }
    let k = delivery::track_of(t, n);
    let x = sample_tables::sample_bytes(b, t, n);
    mark_named_from(b, t, n, k, x, forms, rows, more)
}

// Samples first to last and those that their extractors name, checked and marked, each once.
pub(crate) fn mark_range(
    b: &[u8],
    t: &[u64],
    first: usize,
    last: usize,
    forms: &mut [u64],
    rows: &mut [u32],
)
    requires { (length b.now ≤ bundle_most) × (length rows.old ≤ rows_most) × Survey b.now t.now forms.old rows.old 0 × (0 < first) }
    ensures { Ready b.now t.now forms.new rows.new }
{
    let mut used: usize = 0;
    for n in first - 1..last {
        used = mark_with_named(b, t, SampleNumber(n + 1), forms, rows, used);
    }
}
