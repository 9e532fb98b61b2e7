// Decoder configuration records, as numbers.
ghost use Rattle.std.specs.Prelude.{◌≡◌, length};
ghost use Rattle.words.specs.Buffers.{leaves};
ghost use Rattle.record_numbers.specs.Numbers.{read_numbers, write_numbers};
ghost use Rattle.puddockle.specs.Returns.{Returned, ReturnedOutput};

use crate::answer;

pub fn puddockle_read_record(kind: u32, record: &[u8], fields: &mut [u64], place: &mut u64) -> u32
    ensures { Returned result place.new (read_numbers kind «record».now (length fields.old))
        × (fields.new ≡ leaves fields.old (read_numbers kind «record».now (length fields.old))) }
{
    let mut count: u64 = 0;
    let numbered = record_numbers::read(kind, record, fields);
    answer::written(numbered, place, &mut count)
}

pub fn puddockle_write_record(
    kind: u32,
    fields: &[u64],
    sequence: &[u8],
    picture: &[u8],
    extension: &[u8],
    out: &mut [u8],
    place: &mut u64,
    count: &mut u64,
) -> u32
    ensures { ReturnedOutput result place.new count.new out.old out.new
        (write_numbers kind fields.now sequence.now picture.now extension.now (length out.old)) }
{
    let written = record_numbers::write(kind, fields, sequence, picture, extension, out);
    answer::written(written, place, count)
}
