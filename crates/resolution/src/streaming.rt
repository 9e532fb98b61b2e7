// A sample as a byte stream, by a bundle and any table beside it.
ghost use Rattle.std.specs.Prelude.{◌≡◌, ◌+◌, ◌≤◌, length};
ghost use Rattle.words.specs.Refusals.{ok};
ghost use Rattle.words.specs.Buffers.{within, Wrote};
ghost use Rattle.numbers.specs.Answers.{answer_of};
ghost use Rattle.units.specs.Units.{sample};
ghost use Rattle.byte_streams.specs.Writing.{is_streamable};
ghost use Rattle.bundles.specs.Limits.{bundle_most};
ghost use Rattle.bundles.specs.Recordings.{content_of};
ghost use Rattle.tables.specs.Tables.{recording_in};
ghost use Rattle.resolution_rules.specs.Resolving.{sample_of, judged};
ghost use Rattle.resolution_rules.specs.Calls.{span_bytes, stream};
ghost use Rattle.delivery.specs.Deliveries.{span_for};
ghost use Rattle.resolution.specs.Streams.{stream_size};

use crate::writing::{Framing, write_units};
use delivery::{Span, Stepped};
use numbers::{Fault, Refusal, SampleNumber};
use units::Track;

// Whether a delivered unit can stand in a byte stream. It is searched where it stands.
fn is_streamable(b: &[u8], t: &[u64], u: Span) -> bool
    requires { u.start.0 + u.size ≤ length (content_of (recording_in b.now t.now) u.sample.0) }
    ensures { result ≡ is_streamable (span_bytes (recording_in b.now t.now) (span_for u)) }
{
    let z = sample_tables::sample_bytes(b, t, u.sample);
    let start = u.start.0;
    let end = start + u.size;
    byte_streams::is_streamable(&z[start..end])
}

// 32 of the first unit that can stand in no byte stream, of what sample n delivers, which is x and good; or how long its stream is.
fn judge_units(b: &[u8], t: &[u64], n: SampleNumber, k: Track, x: &[u8]) -> Result<usize, Refusal>
    requires { (sample k x.now ≡ sample_of (recording_in b.now t.now) n.0) × (judged (recording_in b.now t.now) n.0 ≡ ok tt) × (length b.now ≤ bundle_most) }
    ensures { answer_of result ≡ stream_size (recording_in b.now t.now) n.0 }
{
    let mut size: usize = 0;
    let mut c = delivery::start();
    loop {
        match delivery::step(b, t, n, k, x, c) {
            Stepped::Done => {
                return Ok(size);
            }
            Stepped::Moved(d) => {
                c = d;
            }
            Stepped::Unit(u, d) => {
                if !is_streamable(b, t, u.span) {
                    return Err(Refusal::at(Fault::UnitNotStreamable, size));
                }
                size += copies::LENGTH_BEFORE + u.span.size;
                c = d;
            }
        }
    }
}

// Sample n as a byte stream: 30, 14 to 28, 32, 29, or what it delivers over the start of the buffer.
pub(crate) fn stream_sample(
    b: &[u8],
    t: &[u64],
    n: SampleNumber,
    out: &mut [u8],
) -> Result<usize, Refusal>
    requires { length b.now ≤ bundle_most }
    ensures { Wrote out.old out.new (answer_of result)
        (within (length out.old) (stream (recording_in b.now t.now) n.0)) }
{
    let _ = verdicts::judge(b, t, n)?;
    let k = delivery::track_of(t, n);
    let x = sample_tables::sample_bytes(b, t, n);
    let size = judge_units(b, t, n, k, x)?;
    if out.len() < size {
        return Err(Refusal::at(Fault::OutputTooLong, 0));
    }
    write_units(out, b, t, Framing::StartCodes, n, k, x);
    Ok(size)
}
