// What stands at a place of a sample, and the fields of an extractor, for walks: total, nothing where there is a fault.
#![tactic(auto)]

ghost use Rattle.std.specs.Prelude.{◌≡◌};
ghost use Rattle.units.specs.Units.{sample};
ghost use Rattle.units.specs.Steps.{extractor_at};
ghost use Rattle.unit_steps.specs.Items.{item_at};

use numbers::{ByteOffset, LengthSize};
use units::{Extractor, NalUnit, Track};

// What stands at a place: nothing that lies in the sample; an aggregator, and where its included units start; an extractor, and where the
// next unit starts; another unit.
#[derive(Clone, Copy)]
pub enum Item {
    Nothing,
    Aggregator(ByteOffset),
    Extractor(ByteOffset),
    Unit(NalUnit),
}

// What stands at a place of a sample. Its type is read once, and its length once where it matters.
pub fn item_at(k: Track, s: &[u8], at: ByteOffset) -> Item
    ensures { result ≡ item_at (sample k s.now) at.0 }
{
    let l = k.length_size;
    let n = l.bytes();
    let p = at.0;
    if s.len() <= p || s.len() - p < n {
        return Item::Nothing;
    }
    let start = p + n;
    let nal_type = numbers::byte(s, start) % numbers::NAL_TYPES;
    if nal_type == units::AGGREGATOR {
        return Item::Aggregator(ByteOffset(start + LengthSize::HEADER + n));
    }
    let size = l.number(s, p);
    if s.len() - start < size {
        return Item::Nothing;
    }
    let next = ByteOffset(start + size);
    if nal_type == units::EXTRACTOR {
        return Item::Extractor(next);
    }
    Item::Unit(NalUnit {
        start: ByteOffset(start),
        size,
        nal_type,
        next,
    })
}

// The fields of the extractor at a place, if it is one and has none of 14 to 18 and 22 in what ends at an offset: its length is that of an
// extractor, it ends at or before that offset, and its first byte is of type 31 without the top bit. Each is read once.
pub fn extractor_at(k: Track, s: &[u8], at: ByteOffset, end: ByteOffset) -> Option<Extractor>
    ensures { result ≡ extractor_at (sample k s.now) end.0 at.0 }
{
    let p = at.0;
    let l = k.length_size;
    let n = l.bytes();
    let bytes = l.extractor_size();
    if end.0 <= p || end.0 - p < n + bytes || l.number(s, p) != bytes {
        return None;
    }
    let head = numbers::byte(s, p + n);
    if numbers::FORBIDDEN_BIT <= head || head % numbers::NAL_TYPES != units::EXTRACTOR {
        return None;
    }
    let fields = p + n + LengthSize::HEADER;
    Some(Extractor {
        track_ref_index: numbers::byte(s, fields),
        sample_offset: numbers::byte(s, fields + 1),
        data_offset: ByteOffset(l.number(s, fields + 2)),
        data_length: l.number(s, fields + 2 + n),
    })
}
