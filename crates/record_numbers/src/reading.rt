// The numbers of a record that was read.
ghost use Rattle.std.specs.Prelude.{◌≡◌};
ghost use Rattle.record_numbers.specs.Numbers.{trailer_numbers, numbers_of};

use crate::{TRAILER_ABSENT, TRAILER_NONE, TRAILER_PRESENT};
use record_rules::{Part, Record, Trailer};

// Numbers 11 to 17: a trailer and where its sets stand.
fn trailer_numbers(trailer: Trailer, sets: Part) -> [u64; 7]
    ensures { result ≡ trailer_numbers trailer sets }
{
    match trailer {
        Trailer::None => [TRAILER_NONE, 0, 0, 0, 0, 0, 0],
        Trailer::Absent => [TRAILER_ABSENT, 0, 0, 0, 0, 0, 0],
        Trailer::Present(t) => [
            TRAILER_PRESENT,
            t.format as u64,
            t.luma as u64,
            t.chroma as u64,
            t.extensions as u64,
            sets.start.0 as u64,
            sets.len as u64,
        ],
    }
}

// The numbers of a record.
#[tactic(auto, using(crate::proofs::Laws::trailer_cells), unfolding(crate::specs::Numbers::numbers_of))]
pub(crate) fn numbers_of(r: Record) -> [u64; 18]
    ensures { result ≡ numbers_of r }
{
    let f = r.fields;
    let t = trailer_numbers(f.trailer, r.extensions);
    [
        f.profile as u64,
        f.compatibility as u64,
        f.level as u64,
        u64::from(f.complete.bit()),
        f.length_size as u64,
        f.sequences as u64,
        r.sequences.start.0 as u64,
        r.sequences.len as u64,
        f.pictures as u64,
        r.pictures.start.0 as u64,
        r.pictures.len as u64,
        t[0],
        t[1],
        t[2],
        t[3],
        t[4],
        t[5],
        t[6],
    ]
}
