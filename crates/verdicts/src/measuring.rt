// A sample measured: what its own units and the copies of its extractors come to, by what is known of the samples that they name.
ghost use Rattle.std.specs.Prelude.{◌≡◌, ◌≤◌, length};
ghost use Rattle.words.specs.Refusals.{ok};
ghost use Rattle.numbers.specs.Faults.{numbered};
ghost use Rattle.units.specs.Units.{sample};
ghost use Rattle.units.specs.Steps.{extractor_at};
ghost use Rattle.samples.specs.Check.{check};
ghost use Rattle.bundles.specs.Limits.{bundle_most};
ghost use Rattle.tables.specs.Tables.{recording_in};
ghost use Rattle.resolution_rules.specs.Resolving.{sample_of};
ghost use Rattle.judging.specs.Steps.{judgement, answer_of};
ghost use Rattle.mark_rules.specs.Amounts.{copy_amount};
ghost use Rattle.verdicts.specs.Surveys.{Tells, Ready};
ghost use Rattle.verdicts.specs.Amounts.{extract_amount, amount_by};

use crate::surveys::{FORMED, PACKING, known};
use judging::Amount;
use mark_rules::CopyAmount;
use numbers::{ByteOffset, Fault, Refusal, SampleNumber};
use unit_steps::Item;
use units::{Extractor, Track};

// A copy of a sample of which nothing is known: it is checked, and gone over from its front.
fn copy_unknown(
    k: Track,
    z: &[u8],
    rows: &[u32],
    offset: ByteOffset,
    length: usize,
) -> Result<CopyAmount, Fault>
    ensures { numbered result ≡ copy_amount (sample k z.now) offset.0 length }
{
    match samples::check_sample(k, z) {
        Err(_) => Err(Fault::NamedIllFormed),
        Ok(()) => marks::copy_of(k, z, rows, rows.len(), offset, length),
    }
}

// A copy of a sample by what is known of it: 25 to 28, or its units counted.
fn copy_known(
    k: Track,
    z: &[u8],
    rows: &[u32],
    form: u64,
    offset: ByteOffset,
    length: usize,
) -> Result<CopyAmount, Fault>
    requires { Tells (sample k z.now) form rows.now }
    ensures { numbered result ≡ copy_amount (sample k z.now) offset.0 length }
{
    if form == 0 {
        return copy_unknown(k, z, rows, offset, length);
    }
    if form % PACKING != FORMED {
        return Err(Fault::NamedIllFormed);
    }
    let base = (form / PACKING) as usize;
    marks::copy_of(k, z, rows, base, offset, length)
}

// What an extractor in sample n copies: 23 to 28, or its units counted.
fn extract(
    b: &[u8],
    t: &[u64],
    forms: &[u64],
    rows: &[u32],
    n: SampleNumber,
    f: Extractor,
) -> Result<CopyAmount, Fault>
    requires { Ready b.now t.now forms.now rows.now }
    ensures { numbered result ≡ extract_amount (recording_in b.now t.now) n.0 f }
{
    let m = links::name(t, n, f.track_ref_index, f.sample_offset)?;
    let k = delivery::track_of(t, m);
    let z = sample_tables::sample_bytes(b, t, m);
    copy_known(k, z, rows, known(forms, m), f.data_offset, f.data_length)
}

// What the extractor at a place of sample n copies, which is x; nothing where there is none.
fn amount_at(
    b: &[u8],
    t: &[u64],
    forms: &[u64],
    rows: &[u32],
    n: SampleNumber,
    k: Track,
    x: &[u8],
    at: ByteOffset,
) -> Result<CopyAmount, Fault>
    requires { Ready b.now t.now forms.now rows.now }
    ensures { numbered result ≡ amount_by (recording_in b.now t.now) n.0 (extractor_at (sample k x.now) (length x.now) at.0) }
{
    match unit_steps::extractor_at(k, x, at, ByteOffset(x.len())) {
        None => Ok(CopyAmount { count: 0, bytes: 0 }),
        Some(f) => extract(b, t, forms, rows, n, f),
    }
}

// A sample that is good.
fn good(count: usize, own: usize, copied: usize) -> Result<Amount, Refusal>
    ensures { answer_of result ≡ ok (record { count = count; own_bytes = own; copied_bytes = copied }) }
{
    Ok(Amount {
        count,
        own_bytes: own,
        copied_bytes: copied,
    })
}

// How much sample n delivers, which is x and well formed; or 23 to 28 of its first extractor that is refused.
pub(crate) fn measure(
    b: &[u8],
    t: &[u64],
    forms: &[u64],
    rows: &[u32],
    n: SampleNumber,
    k: Track,
    x: &[u8],
) -> Result<Amount, Refusal>
    requires { (sample k x.now ≡ sample_of (recording_in b.now t.now) n.0) × (check (sample k x.now) ≡ ok tt)
        × (length b.now ≤ bundle_most) × Ready b.now t.now forms.now rows.now }
    ensures { answer_of result ≡ judgement (recording_in b.now t.now) n.0 }
{
    let mut count: usize = 0;
    let mut own: usize = 0;
    let mut copied: usize = 0;
    let mut p: usize = 0;
    while p < x.len() {
        match unit_steps::item_at(k, x, ByteOffset(p)) {
            // does not come: the sample is well formed
            Item::Nothing => {
                return good(count, own, copied);
            }
            Item::Aggregator(included) => {
                p = included.0;
            }
            Item::Extractor(next) => {
                let copy = amount_at(b, t, forms, rows, n, k, x, ByteOffset(p));
                let a = numbers::at_place(copy, p)?;
                count += a.count;
                copied += a.bytes;
                p = next.0;
            }
            Item::Unit(u) => {
                count += 1;
                own += u.size;
                p = u.next.0;
            }
        }
    }
    good(count, own, copied)
}

// Sample n by what is known of it: 14 to 28, or how much it delivers.
pub(crate) fn judge_known(
    b: &[u8],
    t: &[u64],
    forms: &[u64],
    rows: &[u32],
    n: SampleNumber,
) -> Result<Amount, Refusal>
    requires { (length b.now ≤ bundle_most) × Ready b.now t.now forms.now rows.now }
    ensures { answer_of result ≡ judgement (recording_in b.now t.now) n.0 }
{
    let k = delivery::track_of(t, n);
    let x = sample_tables::sample_bytes(b, t, n);
    let form = known(forms, n);
    if form % PACKING == FORMED {
        return measure(b, t, forms, rows, n, k, x);
    }
    if form != 0 {
        return Err(Refusal {
            number: (form % PACKING) as u8,
            place: ByteOffset((form / PACKING) as usize),
        });
    }
    samples::check_sample(k, x)?;
    measure(b, t, forms, rows, n, k, x)
}
