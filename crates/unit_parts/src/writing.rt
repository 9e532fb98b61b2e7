// Where the units that a sample delivers stand, written over lent numbers, by a bundle and any table beside it.
ghost use Rattle.std.specs.Prelude.{◌≡◌, ◌+◌, ◌≤◌, length};
ghost use Rattle.words.specs.Refusals.{refused, ok};
ghost use Rattle.words.specs.Buffers.{write_at, overwrite, within, Wrote};
ghost use Rattle.numbers.specs.Answers.{answer_of};
ghost use Rattle.units.specs.Units.{sample};
ghost use Rattle.bundles.specs.Limits.{bundle_most};
ghost use Rattle.tables.specs.Tables.{recording_in, start_in};
ghost use Rattle.resolution_rules.specs.Resolving.{sample_of, judged};
ghost use Rattle.resolution_rules.specs.Calls.{place_on, part_numbers, parts_of};
ghost use Rattle.delivery.specs.Deliveries.{span_for};
ghost use Rattle.unit_parts.specs.Answers.{parts_in};

use delivery::{Span, Stepped};
use numbers::{Fault, Refusal, SampleNumber};
use units::Track;

// How many numbers say where a unit stands: its start and its size.
const PART_NUMBERS: usize = 2;

// Where a delivered unit starts in the bundle and its size, over two numbers.
fn put_part(out: &mut [u64], at: usize, t: &[u64], u: Span)
    requires { (start_in t.now u.sample.0 + (u.start.0 + u.size) ≤ bundle_most) × (at + 2 ≤ length out.old) }
    ensures { out.new ≡ write_at out.old at (part_numbers (place_on (start_in t.now) (span_for u))) }
{
    let sample = sample_tables::sample_start(t, u.sample);
    let start = sample.0 + u.start.0;
    out[at] = start as u64;
    out[at + 1] = u.size as u64;
}

// Where the units that sample n delivers stand, which is x and good, over the start of numbers that are enough.
fn write_parts(out: &mut [u64], b: &[u8], t: &[u64], n: SampleNumber, k: Track, x: &[u8])
    requires { (sample k x.now ≡ sample_of (recording_in b.now t.now) n.0) × (judged (recording_in b.now t.now) n.0 ≡ ok tt)
        × (length b.now ≤ bundle_most) × (length (parts_in b.now t.now n.0) ≤ length out.old) }
    ensures { out.new ≡ overwrite out.old (parts_in b.now t.now n.0) }
{
    let mut at: usize = 0;
    let mut c = delivery::start();
    loop {
        match delivery::step(b, t, n, k, x, c) {
            Stepped::Done => {
                return;
            }
            Stepped::Moved(d) => {
                c = d;
            }
            Stepped::Unit(u, d) => {
                put_part(out, at, t, u.span);
                at += PART_NUMBERS;
                c = d;
            }
        }
    }
}

// Where the units that sample n delivers stand: 30, 14 to 28, 29, or two numbers a unit over the start of the lent ones.
pub(crate) fn place_units(
    b: &[u8],
    t: &[u64],
    n: SampleNumber,
    out: &mut [u64],
) -> Result<usize, Refusal>
    requires { length b.now ≤ bundle_most }
    ensures { Wrote out.old out.new (answer_of result) (within (length out.old) (parts_of (recording_in b.now t.now) n.0 (start_in t.now))) }
{
    let a = verdicts::judge(b, t, n)?;
    let units = a.count;
    let size = PART_NUMBERS * units;
    if out.len() < size {
        return Err(Refusal::at(Fault::OutputTooLong, 0));
    }
    let k = delivery::track_of(t, n);
    let x = sample_tables::sample_bytes(b, t, n);
    write_parts(out, b, t, n, k, x);
    Ok(size)
}
