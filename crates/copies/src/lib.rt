// What an extractor copies of the sample that it names.
#![tactic(auto)]

pub mod range;

ghost use Rattle.std.specs.Prelude.{◌≡◌, ◌≤◌, length};
ghost use Rattle.words.specs.Lists.{nth};
ghost use Rattle.units.specs.Units.{sample};
ghost use Rattle.copies.specs.Extracted.{plain_units, FoundAt, copied_unit, extracted};

use numbers::ByteOffset;
use unit_steps::Item;
use units::Track;

// The size of the length that stands before a unit in the output.
pub const LENGTH_BEFORE: usize = 4;

// Where the ith unit from 1 stands, from a place up to an end in the sample, that is no aggregator and no extractor, if there is one.
fn place_among(k: Track, z: &[u8], from: usize, to: usize, i: usize) -> Option<usize>
    requires { to ≤ length z.now }
    ensures { FoundAt result (nth (plain_units (sample k z.now) from to) i (length z.now)) (length z.now) }
{
    if i == 0 {
        return None;
    }
    // stays: `left` counts the units that are met, not the steps of the loop
    let mut left = i;
    let mut q = from;
    while q < to {
        match unit_steps::item_at(k, z, ByteOffset(q)) {
            Item::Nothing => return None,
            Item::Aggregator(included) => q = included.0,
            Item::Extractor(next) => q = next.0,
            Item::Unit(u) => {
                left -= 1;
                if left == 0 {
                    return Some(q);
                }
                q = u.next.0;
            }
        }
    }
    None
}

// The ith unit from 1 of a copy by data_offset and data_length, as a part of the sample; empty where there is none.
fn copied_unit<'a>(k: Track, z: &'a [u8], offset: ByteOffset, length: usize, i: usize) -> &'a [u8]
    ensures { result.now ≡ copied_unit (sample k z.now) offset.0 length i }
{
    let to = range::copy_end_in(k, z, offset, length);
    match place_among(k, z, offset.0, to.0, i) {
        Some(at) => {
            let l = k.length_size;
            let start = at + l.bytes();
            &z[start..start + l.number(z, at)]
        }
        None => &z[..0],
    }
}

// The ith unit from 1 that the extractor at a place of the sample x stands for, as a part of the linked sample z; empty where there is none.
// Nothing is judged here: the linked sample is gone over from data_offset up to that unit, and no further.
#[tactic(auto, unfolding(crate::specs::Extracted::extracted))]
pub fn extracted<'a>(
    kx: Track,
    x: &[u8],
    at: ByteOffset,
    kz: Track,
    z: &'a [u8],
    i: usize,
) -> &'a [u8]
    ensures { result.now ≡ extracted (sample kx x.now) at.0 (sample kz z.now) i }
{
    match unit_steps::extractor_at(kx, x, at, ByteOffset(x.len())) {
        Some(f) => copied_unit(kz, z, f.data_offset, f.data_length, i),
        None => &z[..0],
    }
}
