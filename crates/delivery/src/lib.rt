// What a good sample delivers, unit by unit: a cursor, and the one step that all loops over delivered units take. Nothing is judged here.
// Every function takes any bytes, any table, any numbers and any cursor.
#![tactic(auto)]

ghost use Rattle.std.specs.Prelude.{◌≡◌, length};
ghost use Rattle.units.specs.Units.{sample};
ghost use Rattle.units.specs.Steps.{extractor_at};
ghost use Rattle.tables.specs.Tables.{layout_in, recording_in};
ghost use Rattle.delivery.specs.Steps.{start, track_for, copy_of, number_after, with_copy_at, with_place, copy_step, extractor_step_by, own_step, step_of};

use numbers::{ByteOffset, Kind, LengthSize, SampleNumber};
use unit_steps::Item;
use units::{Extractor, Track};

// A copy that is being delivered: the extractor's place in its own sample, the sample that it names with what its track says of it, where
// the copy goes on there, where it ends, and how many of its units are delivered.
#[derive(Clone, Copy)]
pub struct CopyCursor {
    pub extractor: ByteOffset,
    pub named: SampleNumber,
    pub track: Track,
    pub at: ByteOffset,
    pub end: ByteOffset,
    pub count: usize,
}

// How far the delivery of a sample has come: where its own units go on, and a copy, which comes first until it is at its end.
#[derive(Clone, Copy)]
pub struct Cursor {
    pub place: ByteOffset,
    pub copy: CopyCursor,
}

// A unit: which sample it stands in, where it starts there, after its length field, and its size.
#[derive(Clone, Copy)]
pub struct Span {
    pub sample: SampleNumber,
    pub start: ByteOffset,
    pub size: usize,
}

// Where a delivered unit comes from: the sample itself; or a copy: the extractor's place, and the unit's number in its copy, from 1.
#[derive(Clone, Copy)]
pub enum Source {
    Own,
    Copy(ByteOffset, usize),
}

// A delivered unit, and where it comes from.
#[derive(Clone, Copy)]
pub struct DeliveredUnit {
    pub span: Span,
    pub source: Source,
}

// A step: nothing is left; nothing delivered, and how it goes on; a unit, and how it goes on.
#[derive(Clone, Copy)]
pub enum Stepped {
    Done,
    Moved(Cursor),
    Unit(DeliveredUnit, Cursor),
}

// What the track of a sample says of it.
pub fn track_of(t: &[u64], n: SampleNumber) -> Track
    ensures { result ≡ track_for (layout_in t.now) n.0 }
{
    let k = sample_tables::sample_track(t, n);
    let kind = tables::track_kind(t, k);
    let length_size = tables::track_length_size(t, k);
    Track { kind, length_size }
}

// The cursor before the first unit; its copy is at its end.
pub fn start() -> Cursor
    ensures { result ≡ start }
{
    Cursor {
        place: ByteOffset(0),
        copy: CopyCursor {
            extractor: ByteOffset(0),
            named: SampleNumber(0),
            track: Track {
                kind: Kind::Avc,
                length_size: LengthSize::One,
            },
            at: ByteOffset(0),
            end: ByteOffset(0),
            count: 0,
        },
    }
}

// The copy of sample m by an extractor at a place: from data_offset up to where it ends.
fn copy_of(b: &[u8], t: &[u64], m: SampleNumber, at: ByteOffset, f: Extractor) -> CopyCursor
    ensures { result ≡ copy_of (recording_in b.now t.now) m at f }
{
    let track = track_of(t, m);
    let z = sample_tables::sample_bytes(b, t, m);
    let end = copies::range::copy_end_in(track, z, f.data_offset, f.data_length);
    CopyCursor {
        extractor: at,
        named: m,
        track,
        at: f.data_offset,
        end,
        count: 0,
    }
}

// The number of a unit that comes after so many others of its copy, which goes on at a place.
fn number_after(count: usize, next: ByteOffset) -> usize
    ensures { result ≡ number_after count next }
{
    if count < next.0 { count + 1 } else { count }
}

// The cursor with another place in the copy, and so many of its units delivered.
fn with_copy_at(c: Cursor, at: ByteOffset, count: usize) -> Cursor
    ensures { result ≡ with_copy_at c at count }
{
    Cursor {
        copy: CopyCursor {
            at,
            count,
            ..c.copy
        },
        ..c
    }
}

// The cursor with another place in the own sample.
fn with_place(c: Cursor, place: ByteOffset) -> Cursor
    ensures { result ≡ with_place c place }
{
    Cursor { place, ..c }
}

// A step in the copy, of the sample z.
fn copy_step(z: &[u8], c: Cursor) -> Stepped
    ensures { result ≡ copy_step z.now c }
{
    match unit_steps::item_at(c.copy.track, z, c.copy.at) {
        Item::Nothing => Stepped::Done,
        Item::Aggregator(included) => Stepped::Moved(with_copy_at(c, included, c.copy.count)),
        // does not come: the sample is good
        Item::Extractor(_) => Stepped::Done,
        Item::Unit(u) => {
            let number = number_after(c.copy.count, u.next);
            Stepped::Unit(
                DeliveredUnit {
                    span: Span {
                        sample: c.copy.named,
                        start: u.start,
                        size: u.size,
                    },
                    source: Source::Copy(c.copy.extractor, number),
                },
                with_copy_at(c, u.next, number),
            )
        }
    }
}

// The step at an extractor, at a place of sample n, which is x: its copy comes next, and the sample goes on after it.
fn extractor_step(
    b: &[u8],
    t: &[u64],
    n: SampleNumber,
    k: Track,
    x: &[u8],
    place: ByteOffset,
    next: ByteOffset,
) -> Stepped
    ensures { result ≡ extractor_step_by (recording_in b.now t.now) n.0 place next
        (extractor_at (sample k x.now) (length x.now) place.0) }
{
    // neither no extractor nor a name that is refused comes: the sample is good
    let Some(f) = unit_steps::extractor_at(k, x, place, ByteOffset(x.len())) else {
        return Stepped::Done;
    };
    let Ok(m) = links::name(t, n, f.track_ref_index, f.sample_offset) else {
        return Stepped::Done;
    };
    Stepped::Moved(Cursor {
        place: next,
        copy: copy_of(b, t, m, place, f),
    })
}

// A step in the own sample, which is sample n, x.
fn own_step(b: &[u8], t: &[u64], n: SampleNumber, k: Track, x: &[u8], c: Cursor) -> Stepped
    ensures { result ≡ own_step (recording_in b.now t.now) n.0 (sample k x.now) c }
{
    match unit_steps::item_at(k, x, c.place) {
        Item::Nothing => Stepped::Done,
        Item::Aggregator(included) => Stepped::Moved(with_place(c, included)),
        Item::Extractor(next) => extractor_step(b, t, n, k, x, c.place, next),
        Item::Unit(u) => Stepped::Unit(
            DeliveredUnit {
                span: Span {
                    sample: n,
                    start: u.start,
                    size: u.size,
                },
                source: Source::Own,
            },
            with_place(c, u.next),
        ),
    }
}

// The step from a cursor over sample n, which is x and good: in the copy, until that is at its end; then in the sample itself.
pub fn step(b: &[u8], t: &[u64], n: SampleNumber, k: Track, x: &[u8], c: Cursor) -> Stepped
    ensures { result ≡ step_of (recording_in b.now t.now) n.0 (sample k x.now) c }
{
    if c.copy.at.0 < c.copy.end.0 {
        copy_step(sample_tables::sample_bytes(b, t, c.copy.named), c)
    } else {
        own_step(b, t, n, k, x, c)
    }
}
