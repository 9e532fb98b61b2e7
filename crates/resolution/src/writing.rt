// What a sample delivers written over a buffer, by a bundle and any table beside it.
ghost use Rattle.std.specs.Prelude.{◌≡◌, ◌+◌, ◌≤◌, length};
ghost use Rattle.words.specs.Refusals.{refused, ok};
ghost use Rattle.words.specs.Buffers.{write_at, overwrite, put, within, Wrote};
ghost use Rattle.numbers.specs.Answers.{answer_of};
ghost use Rattle.units.specs.Units.{sample};
ghost use Rattle.bundles.specs.Limits.{bundle_most};
ghost use Rattle.bundles.specs.Recordings.{content_of};
ghost use Rattle.tables.specs.Tables.{recording_in};
ghost use Rattle.resolution_rules.specs.Resolving.{sample_of, delivered, judged};
ghost use Rattle.resolution_rules.specs.Calls.{resolve};
ghost use Rattle.delivery.specs.Deliveries.{span_for};
ghost use Rattle.resolution.specs.Framing.{front_of, framed_unit, framed};

use delivery::{Span, Stepped};
use numbers::{Fault, Refusal, SampleNumber};
use units::Track;

// What stands in the 4 bytes before each unit: its length, or a start code.
#[derive(Clone, Copy)]
pub(crate) enum Framing {
    Lengths,
    StartCodes,
}

// The number in the 4 bytes before a unit of a size. A start code is 1 in 4 bytes.
fn front(f: Framing, size: usize) -> usize
    ensures { result ≡ front_of f size }
{
    match f {
        Framing::Lengths => size,
        Framing::StartCodes => 1,
    }
}

// A delivered unit after its 4 bytes, over a buffer that has room; the number of bytes written.
fn put_unit(out: &mut [u8], at: usize, b: &[u8], t: &[u64], f: Framing, u: Span) -> usize
    requires { (u.start.0 + u.size ≤ length (content_of (recording_in b.now t.now) u.sample.0)) × (at + (4 + u.size) ≤ length out.old) }
    ensures { (result ≡ length (framed_unit f (recording_in b.now t.now) (span_for u)))
        × (out.new ≡ put out.old at (framed_unit f (recording_in b.now t.now) (span_for u))) }
{
    let z = sample_tables::sample_bytes(b, t, u.sample);
    let size = u.size;
    let start = u.start.0;
    let end = start + size;
    numbers::put_number(out, at, copies::LENGTH_BEFORE, front(f, size));
    numbers::put_bytes(out, at + copies::LENGTH_BEFORE, &z[start..end]);
    copies::LENGTH_BEFORE + size
}

// What sample n delivers, which is x and good, over a buffer that has room, from a place on; the place after it.
pub(crate) fn write_units_from(
    out: &mut [u8],
    from: usize,
    b: &[u8],
    t: &[u64],
    f: Framing,
    n: SampleNumber,
    k: Track,
    x: &[u8],
) -> usize
    requires { (sample k x.now ≡ sample_of (recording_in b.now t.now) n.0) × (judged (recording_in b.now t.now) n.0 ≡ ok tt)
        × (from + length (framed f (recording_in b.now t.now) (delivered (recording_in b.now t.now) n.0)) ≤ length out.old) }
    ensures { (result ≡ from + length (framed f (recording_in b.now t.now) (delivered (recording_in b.now t.now) n.0)))
        × (out.new ≡ write_at out.old from (framed f (recording_in b.now t.now) (delivered (recording_in b.now t.now) n.0))) }
{
    let mut at = from;
    let mut c = delivery::start();
    loop {
        match delivery::step(b, t, n, k, x, c) {
            Stepped::Done => {
                return at;
            }
            Stepped::Moved(d) => {
                c = d;
            }
            Stepped::Unit(u, d) => {
                at += put_unit(out, at, b, t, f, u.span);
                c = d;
            }
        }
    }
}

// What sample n delivers, which is x and good, over the start of a buffer that has room.
pub(crate) fn write_units(
    out: &mut [u8],
    b: &[u8],
    t: &[u64],
    f: Framing,
    n: SampleNumber,
    k: Track,
    x: &[u8],
)
    requires { (sample k x.now ≡ sample_of (recording_in b.now t.now) n.0) × (judged (recording_in b.now t.now) n.0 ≡ ok tt)
        × (length (framed f (recording_in b.now t.now) (delivered (recording_in b.now t.now) n.0)) ≤ length out.old) }
    ensures { out.new ≡ overwrite out.old (framed f (recording_in b.now t.now) (delivered (recording_in b.now t.now) n.0)) }
{
    write_units_from(out, 0, b, t, f, n, k, x);
}

// Sample n resolved: 30, 14 to 28, 29, or what it delivers over the start of the buffer.
pub(crate) fn resolve_sample(
    b: &[u8],
    t: &[u64],
    n: SampleNumber,
    out: &mut [u8],
) -> Result<usize, Refusal>
    requires { length b.now ≤ bundle_most }
    ensures { Wrote out.old out.new (answer_of result)
        (within (length out.old) (resolve (recording_in b.now t.now) n.0)) }
{
    let a = verdicts::judge(b, t, n)?;
    let size = a.own_bytes + a.copied_bytes + copies::LENGTH_BEFORE * a.count;
    if out.len() < size {
        return Err(Refusal::at(Fault::OutputTooLong, 0));
    }
    let k = delivery::track_of(t, n);
    let x = sample_tables::sample_bytes(b, t, n);
    write_units(out, b, t, Framing::Lengths, n, k, x);
    Ok(size)
}
