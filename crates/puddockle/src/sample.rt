// One sample outside a bundle: checked, or made of a byte stream.
ghost use Rattle.std.specs.Prelude.{length};
ghost use Rattle.byte_streams.specs.Reading.{from_stream};
ghost use Rattle.samples.specs.Check.{check_alone};
ghost use Rattle.puddockle.specs.Returns.{Returned, ReturnedOutput};

use crate::answer;

pub fn puddockle_check_sample(kind: u32, length_size: u32, sample: &[u8], place: &mut u64) -> u32
    ensures { Returned result place.new (check_alone kind length_size sample.now) }
{
    *place = 0;
    match samples::check(kind, length_size, sample) {
        Err(f) => answer::refused(f, place),
        Ok(()) => 0,
    }
}

pub fn puddockle_from_stream(
    length_size: u32,
    stream: &[u8],
    out: &mut [u8],
    place: &mut u64,
    count: &mut u64,
) -> u32
    ensures { ReturnedOutput result place.new count.new out.old out.new
        (from_stream length_size stream.now (length out.old)) }
{
    let read = stream_reader::from_stream(length_size, stream, out);
    answer::written(read, place, count)
}
