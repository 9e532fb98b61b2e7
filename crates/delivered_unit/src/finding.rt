// One delivered unit by its number, by a bundle and any table beside it.
ghost use Rattle.std.specs.Prelude.{◌≡◌, ℕ, ◌≤◌, ◌<◌, length};
ghost use mathlib.Core.List.{Memᴰ};
ghost use Rattle.words.specs.Refusals.{refused, ok};
ghost use Rattle.words.specs.Lists.{nth};
ghost use Rattle.units.specs.Units.{sample};
ghost use Rattle.bundles.specs.Limits.{bundle_most};
ghost use Rattle.bundles.specs.Recordings.{sample_count};
ghost use Rattle.tables.specs.Tables.{layout_in, recording_in, start_in};
ghost use Rattle.resolution_rules.specs.Resolving.{sample_of, judged};
ghost use Rattle.resolution_rules.specs.Calls.{span_bytes, resolve_unit, placed_by};
ghost use Rattle.delivery.specs.Deliveries.{span_for, unit_for, deliveries, no_delivery};
ghost use Rattle.delivered_unit.specs.Answers.{unit_answer_of, place_answer_of, resolve_delivery, delivery_answer_of, found_bytes};

use crate::UnitPart;
use delivery::{DeliveredUnit, Source, Span, Stepped};
use numbers::{ByteOffset, Refusal, SampleNumber};
use units::Track;

// No unit.
fn no_unit() -> DeliveredUnit
    ensures { unit_for result ≡ no_delivery }
{
    DeliveredUnit {
        span: Span {
            sample: SampleNumber(0),
            start: ByteOffset(0),
            size: 0,
        },
        source: Source::Own,
    }
}

// The ith unit from 1 that sample n delivers, which is x and good; no unit where there is none.
fn find(b: &[u8], t: &[u64], n: SampleNumber, k: Track, x: &[u8], i: usize) -> DeliveredUnit
    requires { (sample k x.now ≡ sample_of (recording_in b.now t.now) n.0) × (judged (recording_in b.now t.now) n.0 ≡ ok tt) × (0 < i) }
    ensures { unit_for result ≡ nth (deliveries (recording_in b.now t.now) n.0) i no_delivery }
{
    let mut left = i;
    let mut c = delivery::start();
    loop {
        match delivery::step(b, t, n, k, x, c) {
            Stepped::Done => {
                return no_unit();
            }
            Stepped::Moved(d) => {
                c = d;
            }
            Stepped::Unit(u, d) => {
                left -= 1;
                if left == 0 {
                    return u;
                }
                c = d;
            }
        }
    }
}

// The ith unit that sample n delivers, with where it comes from: 30, 14 to 28, 30 for i, or the unit.
fn find_delivery(b: &[u8], t: &[u64], n: SampleNumber, i: usize) -> Result<DeliveredUnit, Refusal>
    requires { length b.now ≤ bundle_most }
    ensures { delivery_answer_of result ≡ resolve_delivery (recording_in b.now t.now) n.0 i }
{
    let a = verdicts::judge(b, t, n)?;
    judging::check_number(a.count, i)?;
    let k = delivery::track_of(t, n);
    let x = sample_tables::sample_bytes(b, t, n);
    Ok(find(b, t, n, k, x, i))
}

// The ith unit that sample n delivers: 30, 14 to 28, 30 for i, or the unit.
pub(crate) fn find_unit(b: &[u8], t: &[u64], n: SampleNumber, i: usize) -> Result<Span, Refusal>
    requires { length b.now ≤ bundle_most }
    ensures { unit_answer_of result ≡ resolve_unit (recording_in b.now t.now) n.0 i }
{
    let u = find_delivery(b, t, n, i)?;
    let span = u.span;
    Ok(span)
}

// Where the ith unit that sample n delivers stands, by a table in which samples start within the bundle.
pub(crate) fn place_unit(
    b: &[u8],
    t: &[u64],
    n: SampleNumber,
    i: usize,
) -> Result<UnitPart, Refusal>
    requires { (length b.now ≤ bundle_most) × ((m : ℕ) → 0 < m → m ≤ sample_count (layout_in t.now) → start_in t.now m ≤ length b.now) }
    ensures { place_answer_of result ≡ placed_by (start_in t.now) (resolve_unit (recording_in b.now t.now) n.0 i) }
{
    let u = find_unit(b, t, n, i)?;
    let sample = sample_tables::sample_start(t, u.sample);
    let start = sample.0 + u.start.0;
    Ok(UnitPart {
        start: ByteOffset(start),
        size: u.size,
    })
}

// The bytes of a unit that sample n delivers, which is good: a part of the sample itself, or of the one that its extractor names.
fn bytes_of<'a>(b: &'a [u8], t: &[u64], n: SampleNumber, u: DeliveredUnit) -> &'a [u8]
    requires { (judged (recording_in b.now t.now) n.0 ≡ ok tt) × Memᴰ (unit_for u) (deliveries (recording_in b.now t.now) n.0) }
    ensures { result.now ≡ span_bytes (recording_in b.now t.now) (span_for u.span) }
{
    let x = sample_tables::sample_bytes(b, t, n);
    let span = u.span;
    let source = u.source;
    match source {
        Source::Own => {
            let start = span.start.0;
            let end = start + span.size;
            &x[start..end]
        }
        Source::Copy(at, number) => {
            let k = delivery::track_of(t, n);
            let linked = delivery::track_of(t, span.sample);
            let z = sample_tables::sample_bytes(b, t, span.sample);
            copies::extracted(k, x, at, linked, z, number)
        }
    }
}

// The bytes of the ith unit that sample n delivers; empty if refused.
pub(crate) fn unit_part<'a>(b: &'a [u8], t: &[u64], n: SampleNumber, i: usize) -> &'a [u8]
    requires { length b.now ≤ bundle_most }
    ensures { result.now ≡ found_bytes (recording_in b.now t.now) (resolve_unit (recording_in b.now t.now) n.0 i) }
{
    match find_delivery(b, t, n, i) {
        Err(_) => &b[..0],
        Ok(u) => bytes_of(b, t, n, u),
    }
}
