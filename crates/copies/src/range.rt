// Where a copy ends, for code that goes over it unit by unit.
ghost use Rattle.std.specs.Prelude.{◌≡◌, ◌+◌, length};
ghost use Rattle.units.specs.Units.{sample};
ghost use Rattle.units.specs.Steps.{place};
ghost use Rattle.copies.specs.Range.{capped, copy_end_in};

use numbers::{ByteOffset, LengthSize};
use units::Track;

// So many bytes on from a place; the end of the sample where that lies past it.
#[tactic(auto, unfolding(crate::specs::Range::capped))]
fn capped_sum(z: &[u8], at: usize, n: usize) -> usize
    ensures { result ≡ capped (length z.now) (at + n) }
{
    at.saturating_add(n).min(z.len())
}

// Where a copy of a sample by data_offset and data_length ends; the end of the sample where it would end past it. Nothing is judged here.
pub fn copy_end_in(k: Track, z: &[u8], offset: ByteOffset, length: usize) -> ByteOffset
    ensures { result ≡ place (copy_end_in (sample k z.now) offset.0 length) }
{
    let from = offset.0;
    if length != 0 {
        return ByteOffset(capped_sum(z, from, length));
    }
    let l = k.length_size;
    let start = capped_sum(z, from, l.bytes());
    let next = capped_sum(z, start, l.number(z, from));
    if units::type_at(k, z, offset) != units::AGGREGATOR {
        return ByteOffset(next);
    }
    let covered = l.number(z, start + LengthSize::HEADER);
    ByteOffset(capped_sum(z, next, covered))
}
