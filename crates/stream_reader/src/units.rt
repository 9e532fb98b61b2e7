// The units of a byte stream, found and judged one by one.
ghost use Rattle.std.specs.Prelude.{◌≡◌, ◌≤◌, ◌<◌, ◌^◌, length};
ghost use Rattle.words.specs.Tests.{◌≤?◌};
ghost use Rattle.words.specs.RefusalNumbers.{bad_byte_stream};
ghost use Rattle.words.specs.Refusals.{refused};
ghost use Rattle.numbers.specs.Sizes.{in_bytes};
ghost use Rattle.byte_streams.specs.Reading.{inside_verdict};
ghost use Rattle.stream_reader.specs.Steps.{unit_from, judgement, judged_of};

use numbers::{Fault, LengthSize, Refusal};

// A good unit: its size, and where the next start code ends, at its 01, or the stream does.
#[derive(Clone, Copy)]
pub struct GoodUnit {
    pub size: usize,
    pub next: usize,
}

// Whether the unit that starts at a place has so many bytes or more: it goes on over bytes that may not stand in it, up to a start code or
// the end. The search ends at the stop where that is known.
fn has_length(s: &[u8], start: usize, least: usize) -> bool
    requires { start ≤ length s.now }
    ensures { result ≡ (least ≤? length (unit_from s.now start)) }
{
    if s.len() - start < least {
        return false;
    }
    let mut stop = byte_streams::unit_stop(s, start);
    let mut next = byte_streams::zeros_end(s, stop);
    while next < s.len() {
        if s[next] == 1 {
            return least <= stop - start;
        }
        if least <= next - start {
            return true;
        }
        stop = byte_streams::unit_stop(s, next);
        next = byte_streams::zeros_end(s, stop);
    }
    least <= stop - start
}

// One more than the greatest length that L bytes can hold.
fn length_limit(l: LengthSize) -> usize
    ensures { result ≡ 256 ^ in_bytes l }
{
    1 << (8 * l.bytes())
}

// A unit with a byte that may not stand in it, the first at a place: 34, or 33 there.
fn judge_bad(s: &[u8], l: LengthSize, start: usize, place: usize) -> Result<GoodUnit, Refusal>
    requires { (start ≤ length s.now) × (inside_verdict 0 start (unit_from s.now start) ≡ refused bad_byte_stream place) }
    ensures { judged_of result ≡ judgement (in_bytes l) s.now start }
{
    if has_length(s, start, length_limit(l)) {
        return Err(Refusal::at(Fault::UnitExceedsLengthSize, start));
    }
    Err(Refusal::at(Fault::BadByteStream, place))
}

// The unit that starts at a place, just after its start code: 33 or 34, or its size, and where the next start code ends, or the stream.
pub(crate) fn judge(s: &[u8], l: LengthSize, start: usize) -> Result<GoodUnit, Refusal>
    requires { (0 < start) × (start ≤ length s.now) }
    ensures { judged_of result ≡ judgement (in_bytes l) s.now start }
{
    let stop = byte_streams::unit_stop(s, start);
    let next = byte_streams::zeros_end(s, stop);
    if next < s.len() && s[next] != 1 {
        return judge_bad(s, l, start, next);
    }
    let size = stop - start;
    if size == 0 {
        return Err(Refusal::at(Fault::BadByteStream, start - 1));
    }
    if length_limit(l) <= size {
        return Err(Refusal::at(Fault::UnitExceedsLengthSize, start));
    }
    Ok(GoodUnit { size, next })
}
