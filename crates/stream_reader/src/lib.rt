// A byte stream read, and written as a sample.
#![tactic(auto)]

mod units;

ghost use Rattle.std.specs.Prelude.{◌≡◌, ◌≤◌, map, length};
ghost use Rattle.words.specs.Refusals.{ok};
ghost use Rattle.words.specs.Bytes.{bytes};
ghost use Rattle.words.specs.Buffers.{put, overwrite, counted, within, Wrote};
ghost use Rattle.numbers.specs.Sizes.{in_bytes};
ghost use Rattle.numbers.specs.Answers.{answer_of};
ghost use Rattle.byte_streams.specs.Reading.{strip, units_in, sample_with, sample_made, from_stream};
ghost use Rattle.byte_streams.specs.Places.{zeros_end};
ghost use Rattle.stream_reader.specs.Steps.{parts_after, add_to};

use numbers::{Fault, LengthSize, Refusal};

// A total with w and n bytes more.
fn added(room: usize, t: Option<usize>, w: usize, n: usize) -> Option<usize>
    ensures { result ≡ add_to room t w n }
{
    let total = t?.checked_add(w)?.checked_add(n)?;
    if total <= room { Some(total) } else { None }
}

// 33 or 34, then 29, or how long the sample is. The zeros at the start of the stream end at first.
fn measure(s: &[u8], l: LengthSize, room: usize, first: usize) -> Result<usize, Refusal>
    requires { first ≡ zeros_end s.now 0 }
    ensures { answer_of result ≡ counted (within room (sample_made (in_bytes l) (units_in (in_bytes l) s.now))) }
{
    let n = s.len();
    // two zeros and 01 are a start code
    if first < n && (first < 2 || s[first] != 1) {
        return Err(Refusal::at(Fault::BadByteStream, first));
    }
    let w = l.bytes();
    let mut t = Some(0);
    let mut p = first;
    while p < n {
        let unit = units::judge(s, l, p + 1)?;
        t = added(room, t, w, unit.size);
        p = unit.next;
    }
    t.ok_or(Refusal::at(Fault::OutputTooLong, 0))
}

// The length of a unit over a buffer from a place on, if it fits there: one size at a time, so that none is a loop of unknown length.
fn put_length(out: &mut [u8], at: usize, l: LengthSize, n: usize)
    ensures { out.new ≡ put out.old at (bytes (in_bytes l) n) }
{
    // stays: one call at `l.bytes()` proves, and takes a quarter longer with two and four bytes
    match l {
        LengthSize::One => numbers::put_number(out, at, 1, n),
        LengthSize::Two => numbers::put_number(out, at, 2, n),
        LengthSize::Four => numbers::put_number(out, at, 4, n),
    }
}

// Each unit of a stream that is good after its length, so many bytes in all, over the start of a buffer that has room.
fn write_units(out: &mut [u8], s: &[u8], l: LengthSize, first: usize, size: usize)
    requires { (first ≡ zeros_end s.now 0) × (units_in (in_bytes l) s.now ≡ ok (map strip (parts_after s.now first)))
        × (length (sample_with (in_bytes l) (map strip (parts_after s.now first))) ≡ size) × (size ≤ length out.old) }
    ensures { out.new
        ≡ overwrite out.old (sample_with (in_bytes l) (map strip (parts_after s.now first))) }
{
    let w = l.bytes();
    let mut at: usize = 0;
    let mut p = first;
    while p < s.len() {
        let start = p + 1;
        let stop = byte_streams::unit_stop(s, start);
        put_length(out, at, l, stop - start);
        numbers::put_bytes(out, at + w, &s[start..stop]);
        at = at + w + (stop - start);
        // after the last unit only zeros are left
        if at == size {
            return;
        }
        p = byte_streams::zeros_end(s, stop);
    }
}

// A byte stream as a sample of length size n: 11, then 33 or 34, then 29; or each unit after its length, over the start of the buffer, and
// how many bytes that is. After a refusal the buffer is as it was.
pub fn from_stream(n: u32, s: &[u8], out: &mut [u8]) -> Result<usize, Refusal>
    ensures { Wrote out.old out.new (answer_of result) (from_stream n s.now (length out.old)) }
{
    let Some(l) = LengthSize::from_number(n) else {
        return Err(Refusal::at(Fault::BadLengthSize, 0));
    };
    let first = byte_streams::zeros_end(s, 0);
    let c = measure(s, l, out.len(), first)?;
    write_units(out, s, l, first, c);
    Ok(c)
}
